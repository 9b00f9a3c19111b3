// The figure for a channel.
use extinction::allowance::allowance;
use network::network::Network;
use samples::networks::path;
use values::least::Least;
use values::number::Number;
use waves::echo::Echo;
use waves::ring::Ring;
use waves::tree::Tree;

#[test]
fn starters_times_the_bound(rt: HostRuntime) {
    let path = path();
    assert_eq!(rt; allowance::<Echo, Number, Least>(&path, 2), 8);
    assert_eq!(rt; allowance::<Tree, Number, Least>(&path, 3), 15);
    assert_eq!(rt; allowance::<Ring, Number, Least>(&path, 1), 3);
}

#[test]
fn no_starters_and_the_most(rt: HostRuntime) {
    let single = Network::single();
    assert_eq!(rt; allowance::<Ring, Number, Least>(&single, 0), 0);
    assert_eq!(rt; allowance::<Ring, Number, Least>(&single, 255), 255);
}
