//! A door over a port of this machine, with a log.
ghost use Rattle.std.specs.Prelude.{None};

use crate::lines::{path_in, put_listening, put_visit, route_of};
use crate::link::LoggedLink;
use outside::{Door, Failed, Sink, TcpDoor, TcpLink};
use std::alloc::Global;
use std::net::Net;

/// A door over a port of this machine. If it has a sink for the log, this gains a line once the door listens, and one for each link that is
/// given back. Where memory is wanting or the sink fails, a line is missing, and nothing else is different.
#[derive(Drop)]
pub struct LoggedDoor<R: Net + Drop, S: Sink + Drop> {
    door: TcpDoor<R>,
    log: Option<S>,
    text: Vec<u8>,
}

impl<R: Net + Drop, S: Sink + Drop> LoggedDoor<R, S> {
    /// Returns the door with a sink for the log, or with no log.
    pub fn new(alloc: Global, door: TcpDoor<R>, log: Option<S>) -> LoggedDoor<R, S> {
        LoggedDoor {
            door,
            log,
            text: Vec::new(alloc),
        }
    }
}

impl<R: Net + Drop, S: Sink + Drop> Door for LoggedDoor<R, S> {
    type Link = LoggedLink<TcpLink<R::Stream>>;

    ghost links = { λ _. None };

    ghost opened_at = { λ d. ⟦<TcpDoor<R> as Door>⟧.opened_at d.door };

    ghost calls = { λ _. None };

    ghost faults = { λ d. ⟦<TcpDoor<R> as Door>⟧.faults d.door };

    fn listen(&mut self, port: u16) -> Result<(), Failed> {
        self.door.listen(port)?;
        if let Some(log) = &mut self.log {
            if put_listening(&mut self.text, port).is_ok() {
                let _ = log.put(&self.text);
            }
        }
        Ok(())
    }

    fn next(&mut self) -> Result<Option<LoggedLink<TcpLink<R::Stream>>>, Failed> {
        match self.door.next()? {
            Some(link) => Ok(Some(LoggedLink::new(link))),
            None => Ok(None),
        }
    }

    fn back(&mut self, link: LoggedLink<TcpLink<R::Stream>>) {
        if let Some(log) = &mut self.log {
            let route = route_of(path_in(link.front()));
            if put_visit(&mut self.text, route, link.status()).is_ok() {
                let _ = log.put(&self.text);
            }
        }
        self.door.back(link.into_link());
    }
}
