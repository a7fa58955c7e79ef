//! The listening of a server. If it fails, the server ends.

use meter_console::SourcesEnd;
use meter_server::{ListenFault, Listener};
use server_io::{DeadlineStream, Sockets};
use std::sync::Wait;

// The sockets of a server. If they fail, or no client can be served, the sources of the meter's own
// events end, and so does the server once its open sessions have ended.
#[derive(Drop)]
pub(crate) struct Listening<R> {
    pub(crate) sockets: Sockets<HostRuntime>,
    pub(crate) sources: SourcesEnd<R>,
}

impl<R: Wait + Copy + Drop> Listener for Listening<R> {
    ghost use Rattle.std.specs.Prelude.{Some};
    ghost use Rattle.server_io.specs.Clients.{accepted_of, setup_failures_of};

    ghost accepted = { λ s. Some (accepted_of s.sockets) };

    ghost setup_failures = { λ s. Some (setup_failures_of s.sockets) };

    type Input = DeadlineStream<HostRuntime>;

    type Output = DeadlineStream<HostRuntime>;

    fn accept(
        &mut self,
    ) -> Result<Option<(DeadlineStream<HostRuntime>, DeadlineStream<HostRuntime>)>, ListenFault> {
        let accepted = self.sockets.accept();
        if self.sockets.has_failed() {
            self.sources.end();
        }
        accepted
    }

    fn on_early_end(&mut self) {
        self.sources.end();
    }
}
