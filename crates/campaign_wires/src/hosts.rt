//! `Hosts`: the IP addresses of host names.
use std::alloc::{AllocError, Global};
use std::collections::HashMap;
use std::net::{Net, SocketAddr, ToSocketAddrs};

// The IP addresses of the host names of a campaign.
#[derive(Drop)]
pub(crate) struct Hosts {
    found: HashMap<Vec<u8>, Vec<SocketAddr>>,
}

// Returns an IP address with its port, if the bytes are one.
fn literal(address: &[u8]) -> Option<SocketAddr> {
    let text = str::from_utf8(address).ok()?;
    text.parse::<SocketAddr>().ok()
}

// Looks up a host name, and returns its IP addresses with the port: none if it has none.
fn look_up<R: Net>(rt: &R, alloc: Global, address: &[u8]) -> Result<Vec<SocketAddr>, AllocError> {
    let mut found = Vec::new(alloc);
    let Ok(text) = str::from_utf8(address) else {
        return Ok(found);
    };
    let Ok(addresses) = text.to_socket_addrs(rt) else {
        return Ok(found);
    };
    'addresses: for it in addresses {
        found.push(it)?;
    }
    Ok(found)
}

impl Hosts {
    // Returns no host name.
    pub(crate) fn new(alloc: Global) -> Hosts {
        Hosts {
            found: HashMap::new(alloc),
        }
    }

    // Looks up the name of an address, unless it is an IP address or was looked up.
    pub(crate) fn add<R: Net>(
        &mut self,
        rt: &R,
        alloc: Global,
        address: &[u8],
    ) -> Result<(), AllocError> {
        if literal(address).is_some() || self.found.contains_key(address) {
            return Ok(());
        }
        let found = look_up(rt, alloc, address)?;
        let name = Vec::from_slice(alloc, address)?;
        self.found.insert(name, found)?;
        Ok(())
    }

    // Returns the IP addresses of an address, the last one first.
    pub(crate) fn addresses(
        &self,
        alloc: Global,
        address: &[u8],
    ) -> Result<Vec<SocketAddr>, AllocError> {
        let mut last_first = Vec::new(alloc);
        if let Some(one) = literal(address) {
            last_first.push(one)?;
        } else if let Some(found) = self.found.get(address) {
            'found: for it in found.iter().rev() {
                last_first.push(*it)?;
            }
        }
        Ok(last_first)
    }
}
