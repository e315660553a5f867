//! A door over a port of this machine, and its links, on one thread.

ghost use Rattle.engine_tests.specs.Doors.{NoMoreBack};

use outside::{Door, Failed, Link, TcpDoor};
use std::io::{Read, Write};
use std::net::TcpStream;
use std::test::Fail;

/// Writes to the next link what one read of it gave, and gives the link back. Returns false if no link came.
fn echo_next<D: Door>(door: &mut D) -> Result<bool, Failed>
    requires { NoMoreBack (D.links door.old) }
    ensures { NoMoreBack (D.links door.new) }
{
    let Some(mut link) = door.next()? else {
        return Ok(false);
    };
    let mut room = [0u8; 16];
    let told = match link.read(&mut room) {
        Ok(count) => link.put(&room[..count]),
        Err(stop) => Err(stop),
    };
    door.back(link);
    told?;
    Ok(true)
}

/// Opens the door at the first port that is free, and returns it.
fn open<D: Door>(door: &mut D) -> Option<u16> {
    for port in 20_000..20_100 {
        if door.listen(port).is_ok() {
            return Some(port);
        }
    }
    None
}

/// Tests that a port is a door, at one address of this machine alone. The door gives the connection that a client makes. What the client writes can be read, and what is put
/// arrives at the client, even if the client has sent more than was read. The connection ends when it is given back.
#[test]
fn ports_are_doors(rt: HostRuntime) -> Result<(), Fail> {
    let mut door = TcpDoor::new(&rt);
    assert!(rt; door.next().is_err());
    let port = open(&mut door).unwrap_or(0);
    assert!(rt; TcpStream::connect(&rt, ("127.0.0.2", port)).is_err());
    let mut client = TcpStream::connect(&rt, ("127.0.0.1", port))?;
    client.write_all(b"who is there? And who is not?")?;
    assert_eq!(rt; echo_next(&mut door).ok(), Some(true));
    let mut room = [0u8; 16];
    let count = client.read(&mut room)?;
    assert_eq!(rt; &room[..count], b"who is there? An".as_slice());
    assert_eq!(rt; client.read(&mut room)?, 0);
    Ok(())
}
