//! A door over a port of this machine, 127.0.0.1. The desk waits at such a door.
ghost use Rattle.std.specs.Prelude.{◌≡◌, ◌≤◌, None, Some, if◌then◌else◌, is_err, IfOk, IfSome, IsSome, OnErr, OnOk, option_map};
ghost use Rattle.outside.specs.Faults.{Rose, raised};
ghost use Rattle.outside.specs.Links.{IsOneOut, after_back, after_next, first_of};

use crate::{Door, Failed, TcpLink};
use std::io::Read;
use std::net::{Net, OpenListener, OpenStream, Shutdown, TcpListener};
use std::time::Duration;

/// The address at which the door listens: only programs of this machine reach it.
const ADDRESS: &str = "127.0.0.1";

/// How long a read or a put of a link waits for the client, in seconds, before it fails.
const PATIENCE: u64 = 10;

/// How long each read of `back` waits for the client to close its end, in milliseconds.
const LINGERING: u64 = 500;

/// The most reads by which `back` takes what the client still sends. Each takes at most 4,096 bytes.
const LAST_READS: usize = 64;

/// A port of this machine. It tells no links: contracts speak of its port and of its count of faults alone. A `listen` or a `next` that the
/// system refuses is a fault, and so is a `next` before the door listens. `next` waits for a connection, and never returns `None`. `back`
/// closes the connection, and counts no fault.
///
/// A read or a put of a link fails if the client lets it wait for 10 seconds.
#[derive(Drop)]
pub struct TcpDoor<R: Net + Drop> {
    rt: R,
    listener: Option<R::Listener>,
    port: Option<u16>,
    faults: u64,
}

impl<R: Net + Drop> TcpDoor<R> {
    /// Returns a door that doesn't listen yet and has counted no fault.
    pub fn new(rt: R) -> TcpDoor<R>
        ensures faults { ⟦<TcpDoor<R> as Door>⟧.faults result ≡ 0 }
        ensures shut { ⟦<TcpDoor<R> as Door>⟧.opened_at result ≡ None }
    {
        TcpDoor {
            rt,
            listener: None,
            port: None,
            faults: 0,
        }
    }

    /// Returns how many calls have failed.
    pub fn faults(&self) -> u64
        ensures { result ≡ ⟦<TcpDoor<R> as Door>⟧.faults self.now }
    {
        self.faults
    }
}

impl<R: Net + Drop> Door for TcpDoor<R> {
    type Link = TcpLink<R::Stream>;

    ghost links = { λ _. None };

    ghost opened_at = { λ d. d.port };

    ghost calls = { λ _. None };

    ghost faults = { λ d. d.faults };

    fn listen(&mut self, port: u16) -> Result<(), Failed>
        ensures port { OnOk result (⟦<TcpDoor<R> as Door>⟧.opened_at self.new ≡ Some port) }
        ensures shut { OnErr result (⟦<TcpDoor<R> as Door>⟧.opened_at self.new
            ≡ ⟦<TcpDoor<R> as Door>⟧.opened_at self.old) }
        ensures same { ⟦<TcpDoor<R> as Door>⟧.links self.new
            ≡ ⟦<TcpDoor<R> as Door>⟧.links self.old }
        ensures never_falls { ⟦<TcpDoor<R> as Door>⟧.faults self.old
            ≤ ⟦<TcpDoor<R> as Door>⟧.faults self.new }
        ensures cause { OnErr result (Rose (⟦<TcpDoor<R> as Door>⟧.faults self.old)
            (⟦<TcpDoor<R> as Door>⟧.faults self.new)) }
        ensures none { OnOk result (⟦<TcpDoor<R> as Door>⟧.faults self.new
            ≡ ⟦<TcpDoor<R> as Door>⟧.faults self.old) }

        // Each error counts one fault, and nothing else does.
        ensures counted { ⟦<TcpDoor<R> as Door>⟧.faults self.new
            ≡ (if is_err result then raised (⟦<TcpDoor<R> as Door>⟧.faults self.old)
            else ⟦<TcpDoor<R> as Door>⟧.faults self.old) }
    {
        match TcpListener::bind(&self.rt, (ADDRESS, port)) {
            Ok(listener) => {
                self.listener = Some(listener);
                self.port = Some(port);
                Ok(())
            }
            Err(_) => {
                self.faults = self.faults.saturating_add(1);
                Err(Failed)
            }
        }
    }

    fn next(&mut self) -> Result<Option<TcpLink<R::Stream>>, Failed>
        ensures first { IfOk result (λ link. IfSome (⟦<TcpDoor<R> as Door>⟧.links self.old)
            (λ told. link ≡ first_of told.coming)) }
        ensures given { OnOk result (⟦<TcpDoor<R> as Door>⟧.links self.new
            ≡ option_map after_next (⟦<TcpDoor<R> as Door>⟧.links self.old)) }
        ensures same { OnErr result (⟦<TcpDoor<R> as Door>⟧.links self.new
            ≡ ⟦<TcpDoor<R> as Door>⟧.links self.old) }
        ensures stays { ⟦<TcpDoor<R> as Door>⟧.opened_at self.new
            ≡ ⟦<TcpDoor<R> as Door>⟧.opened_at self.old }
        ensures never_falls { ⟦<TcpDoor<R> as Door>⟧.faults self.old
            ≤ ⟦<TcpDoor<R> as Door>⟧.faults self.new }
        ensures cause { OnErr result (Rose (⟦<TcpDoor<R> as Door>⟧.faults self.old)
            (⟦<TcpDoor<R> as Door>⟧.faults self.new)) }
        ensures none { OnOk result (⟦<TcpDoor<R> as Door>⟧.faults self.new
            ≡ ⟦<TcpDoor<R> as Door>⟧.faults self.old) }

        // Each error counts one fault, and nothing else does. A link is given at each `Ok`.
        ensures counted { ⟦<TcpDoor<R> as Door>⟧.faults self.new
            ≡ (if is_err result then raised (⟦<TcpDoor<R> as Door>⟧.faults self.old)
            else ⟦<TcpDoor<R> as Door>⟧.faults self.old) }
        ensures some { IfOk result (λ link. IsSome link) }
    {
        if let Some(listener) = &self.listener {
            if let Ok((stream, _)) = listener.accept() {
                let patience = Some(Duration::from_secs(PATIENCE));
                let _reads = stream.set_read_timeout(patience);
                let _puts = stream.set_write_timeout(patience);
                return Ok(Some(TcpLink::new(stream)));
            }
        }
        self.faults = self.faults.saturating_add(1);
        Err(Failed)
    }

    fn back(&mut self, link: TcpLink<R::Stream>)
        requires { IsOneOut (⟦<TcpDoor<R> as Door>⟧.links self.old) }
        ensures last { ⟦<TcpDoor<R> as Door>⟧.links self.new
            ≡ option_map (λ told. after_back told link) (⟦<TcpDoor<R> as Door>⟧.links self.old) }
        ensures stays { ⟦<TcpDoor<R> as Door>⟧.opened_at self.new
            ≡ ⟦<TcpDoor<R> as Door>⟧.opened_at self.old }
        ensures none { ⟦<TcpDoor<R> as Door>⟧.faults self.new
            ≡ ⟦<TcpDoor<R> as Door>⟧.faults self.old }
    {
        close(link.into_stream());
    }
}

/// Closes a connection. First reads what the client has sent and nobody has read: otherwise the system would reset the connection, and the
/// client could lose the answer that was written to it.
fn close<S: Read + OpenStream + Drop>(mut stream: S) {
    let lingering = Some(Duration::from_millis(LINGERING));
    if stream.shutdown(Shutdown::Write).is_err() || stream.set_read_timeout(lingering).is_err() {
        return;
    }
    let mut room = [0u8; 4096];
    for _read in 0..LAST_READS {
        match stream.read(&mut room) {
            Ok(0) | Err(_) => return,
            Ok(_) => {}
        }
    }
}
