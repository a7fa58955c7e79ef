//! Why an association was refused, in words.
ghost use Rattle.std.specs.Prelude.{◌≡◌};
ghost use Rattle.session_log.specs.Reasons.{reason_words};

use acse_ber::diagnostic;

/// Returns the reason of an AARE's diagnostic in words (IEC 62056-5-3, Acse-service-user).
pub fn reason_of(diagnostic: u8) -> &'static str
    ensures { result.now ≡ reason_words diagnostic }
{
    match diagnostic {
        diagnostic::NO_REASON_GIVEN => "no reason given",
        diagnostic::APPLICATION_CONTEXT_NAME_NOT_SUPPORTED => "application context not supported",
        diagnostic::AUTHENTICATION_MECHANISM_NAME_NOT_RECOGNISED => {
            "authentication mechanism not known"
        }
        diagnostic::AUTHENTICATION_FAILURE => "wrong password",
        diagnostic::AUTHENTICATION_REQUIRED => "a password is required",
        _ => "another diagnostic",
    }
}
