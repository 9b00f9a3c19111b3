// Single steps of the waves.
use base::node_set::NodeSet;
use network::network::Network;
use samples::networks::{path, triangle};
use std::process::Abort;
use wave::wave::Wave;
use waves::echo::Echo;
use waves::ring::Ring;
use waves::tree::Tree;

// One node decides at its opening and sends nothing.
fn decides_alone<W: Wave>(rt: &impl Abort) {
    let single = Network::single();
    assert!(rt; W::admits(&single));
    let step = W::open(&single, 0);
    assert!(rt; step.decides);
    assert!(rt; step.first_kind.is_empty());
    assert!(rt; step.second_kind.is_empty());
}

#[test]
fn one_node(rt: HostRuntime) {
    decides_alone::<Ring>(&rt);
    decides_alone::<Tree>(&rt);
    decides_alone::<Echo>(&rt);
}

#[test]
fn admissions(rt: HostRuntime) {
    let path = path();
    assert!(rt; !Ring::admits(&path));
    assert!(rt; Tree::admits(&path));
    assert_eq!(rt; Tree::bound(&path), 5);
    let triangle = triangle();
    assert!(rt; Ring::admits(&triangle));
    assert!(rt; !Tree::admits(&triangle));
    assert_eq!(rt; Echo::bound(&triangle), 6);
}

#[test]
fn tree_starter_with_one_neighbour_sends_its_token(rt: HostRuntime) {
    let path = path();
    let leaf = Tree::open(&path, 0);
    assert_eq!(rt; leaf.second_kind, NodeSet::empty().with(1));
    assert!(rt; leaf.first_kind.is_empty());
    let middle = Tree::open(&path, 1);
    assert_eq!(rt; middle.first_kind, NodeSet::empty().with(0).with(2));
    assert!(rt; middle.second_kind.is_empty());
}
