// What `every_wave_keeps_the_laws` says of each wave here, told of its rules.
ghost use Rattle.rules.specs.Echo as echo_rules;
ghost use Rattle.rules.specs.Ring as ring_rules;
ghost use Rattle.rules.specs.Tree as tree_rules;
ghost use Rattle.wave.specs.Laws.{KeepsLaws};

use crate::echo::Echo;
use crate::ring::Ring;
use crate::tree::Tree;
use wave::wave::every_wave_keeps_the_laws;

pub fn ring_tree_and_echo_keep_the_laws()
    ensures ring { KeepsLaws ring_rules.admitted ring_rules.most ring_rules.opening ring_rules.arrival }
    ensures tree { KeepsLaws tree_rules.admitted tree_rules.most tree_rules.opening tree_rules.arrival }
    ensures echo { KeepsLaws echo_rules.admitted echo_rules.most echo_rules.opening echo_rules.arrival }
{
    every_wave_keeps_the_laws::<Ring>();
    every_wave_keeps_the_laws::<Tree>();
    every_wave_keeps_the_laws::<Echo>();
}
