// Each wave alone on small networks.
use crate::lone::tell;
use network::network::Network;
use samples::networks::{path, triangle};
use std::io;
use waves::echo::Echo;
use waves::ring::Ring;
use waves::tree::Tree;

pub(crate) fn show_all(rt: &impl Print) -> io::Result<()> {
    let single = Network::single();
    tell::<Ring>(rt, "Ring wave on one node", &single, 0)?;
    tell::<Tree>(rt, "Tree wave on one node", &single, 0)?;
    tell::<Echo>(rt, "Echo wave on one node", &single, 0)?;
    let triangle = triangle();
    let path = path();
    tell::<Ring>(rt, "Ring wave on a ring of three", &triangle, 1)?;
    tell::<Tree>(rt, "Tree wave on the path 0-1-2", &path, 0)?;
    tell::<Tree>(rt, "Tree wave on the path 0-1-2", &path, 1)?;
    tell::<Echo>(rt, "Echo wave on a triangle", &triangle, 0)
}
