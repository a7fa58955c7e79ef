//! How each program begins and ends: the words of its command line, the options of its commands, a
//! command line that asks only for help or is wrong, the word of the line `fault: WORD` on standard
//! error, and the exit status.
#![tactic(auto)]

mod fault;
pub mod options;
mod password;
mod start;

pub use fault::Fault;
pub use password::{
    PasswordFault, environment_password, is_exposed, is_password_in_environment, line_of_file,
    read_password, read_password_file,
};
pub use start::{
    exit_code, first_fault, has_option, password_line, print_help_or_error,
    print_help_or_missing_password, print_text, read_arguments, with_argument, with_subcommand,
};
