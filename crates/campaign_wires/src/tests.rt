//! Connections over the loopback interface.
use crate::sockets::{CampaignSockets, ConnectionLimits};
use campaign_loop::{WireRead, Wires};
use cosem_axdr::Octets;
use std::alloc::Global;
use std::io::{Read, Write};
use std::net::TcpListener;
use std::test::Fail;

// The limits of these connections.
const LIMITS: ConnectionLimits = ConnectionLimits {
    connect: 1_000,
    answer: 300,
};

// Returns the text of the address of a port of this machine.
fn address(alloc: Global, port: u16) -> Result<Octets, Fail> {
    let text = format!(in alloc; "127.0.0.1:{port}")?;
    Ok(Octets::from_slice(alloc, text.as_bytes())?)
}

// Waits until the connection of a place can go on, and reads on it.
fn read_on(
    alloc: Global,
    sockets: &mut CampaignSockets<HostRuntime>,
    at: u32,
    buffer: &mut [u8],
) -> Result<WireRead, Fail> {
    let mut ready = Vec::new(alloc);
    for _ in 0..100 {
        ready.clear();
        let read = match sockets.wait(true, &mut ready) {
            Ok(_) if !buffer.is_empty() => sockets.read(at, buffer),
            _ => WireRead::Blocked,
        };
        if read != WireRead::Blocked {
            return Ok(read);
        }
    }
    Ok(WireRead::Blocked)
}

#[test]
fn a_message_is_sent_and_an_answer_is_read(rt: HostRuntime) -> Result<(), Fail> {
    let alloc = rt.alloc();
    let listener = TcpListener::bind(&rt, "127.0.0.1:0")?;
    let port = listener.local_addr()?.port();
    let mut sockets = CampaignSockets::new(rt, alloc, LIMITS, 2, 2)?;
    sockets.open(1, &address(alloc, port)?);
    sockets.send(1, Octets::from_slice(alloc, b"one")?);
    sockets.send(1, Octets::from_slice(alloc, b"two")?);
    let mut buffer = [0; 16];
    let mut ready = Vec::new(alloc);
    assert!(rt; sockets.wait(true, &mut ready).is_ok());
    let (mut client, _) = listener.accept()?;
    let count = client.read(&mut buffer)?;
    assert_eq!(rt; &buffer[..count], b"onetwo".as_slice());
    client.write_all(b"answer")?;
    assert_eq!(rt;
        read_on(alloc, &mut sockets, 1, &mut buffer)?,
        WireRead::Bytes(6)
    );
    assert_eq!(rt; &buffer[..6], b"answer".as_slice());
    sockets.close(1);
    assert_eq!(rt; client.read(&mut buffer)?, 0);
    drop(client);
    assert!(rt; sockets.finish(&rt).is_ok());
    Ok(())
}

#[test]
fn a_port_without_a_listener_and_a_silent_peer_end(rt: HostRuntime) -> Result<(), Fail> {
    let alloc = rt.alloc();
    let listener = TcpListener::bind(&rt, "127.0.0.1:0")?;
    let port = listener.local_addr()?.port();
    let mut sockets = CampaignSockets::new(rt, alloc, LIMITS, 3, 3)?;
    let mut buffer = [0; 16];
    sockets.open(0, &address(alloc, 1)?);
    assert_eq!(rt;
        read_on(alloc, &mut sockets, 0, &mut buffer)?,
        WireRead::Ended
    );
    sockets.close(0);
    sockets.open(1, &address(alloc, port)?);
    assert_eq!(rt;
        read_on(alloc, &mut sockets, 1, &mut buffer)?,
        WireRead::Ended
    );
    sockets.close(1);
    sockets.open(2, &Octets::from_slice(alloc, b"no address")?);
    assert_eq!(rt;
        read_on(alloc, &mut sockets, 2, &mut buffer)?,
        WireRead::Ended
    );
    sockets.close(2);
    assert!(rt; sockets.finish(&rt).is_ok());
    Ok(())
}
