// The connections of a manager that are open, for whoever asks of them or closes them.
use cm_base::{OutOfMemory, TcpCloser};
use std::alloc::Global;
use std::sync::{Mutex, Wait};

/// Connections for which there is room from the start: more than are open at a time.
const ROOM: usize = 512;

/// A connection that is open.
#[derive(Drop)]
pub struct OpenLink {
    /// The number of its nexus.
    pub number: u32,
    /// When it was accepted, in seconds since 1970.
    pub since: u64,
    /// `None` where the system had no handle for it.
    pub closer: Option<TcpCloser>,
}

/// The connections that are open, in the order of accepting.
#[derive(Drop)]
pub struct OpenLinks {
    links: Mutex<Vec<OpenLink>>,
}

impl OpenLinks {
    /// None is open.
    pub fn new(alloc: Global) -> Result<OpenLinks, OutOfMemory> {
        let links = Vec::with_capacity(alloc, ROOM)?;
        Ok(OpenLinks {
            links: Mutex::new(links),
        })
    }

    /// One more is open. Where there is no memory to remember it, it is served and can't be closed by its number.
    pub fn add<W: Wait>(&self, rt: &W, link: OpenLink) {
        let _ = self.links.lock(rt).push(link);
    }

    /// The connection of this number has ended.
    pub fn remove<W: Wait>(&self, rt: &W, number: u32) {
        self.links.lock(rt).retain(|link| link.number != number);
    }

    /// Closes the connection of this number: whether there is one that can be closed.
    pub fn close<W: Wait>(&self, rt: &W, number: u32) -> bool {
        let links = self.links.lock(rt);
        for link in links.iter() {
            if link.number == number {
                return match &link.closer {
                    Some(closer) => {
                        closer.close();
                        true
                    }
                    None => false,
                };
            }
        }
        false
    }

    /// Closes all that are open.
    pub fn close_all<W: Wait>(&self, rt: &W) {
        let links = self.links.lock(rt);
        for link in links.iter() {
            if let Some(closer) = &link.closer {
                closer.close();
            }
        }
    }

    /// The numbers of those that are open, and since when each is, in seconds since 1970.
    pub fn told<W: Wait>(&self, rt: &W, alloc: Global) -> Result<Vec<(u32, u64)>, OutOfMemory> {
        let mut told = Vec::with_capacity(alloc, ROOM)?;
        let links = self.links.lock(rt);
        for link in links.iter() {
            told.push((link.number, link.since))?;
        }
        Ok(told)
    }
}
