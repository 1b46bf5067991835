// A function that stands for a theorem, which is its contract.
ghost use Rattle.layers.specs.Laws.{LayerLaws};

use channel::Channel;

// What the layers do to the measures of words, over every channel of this channel's measure.
#[tactic(auto, using(crate::proofs::Layering::layer_laws))]
pub fn layers_measured<C: Channel>(_channel: &C)
    ensures { LayerLaws C.Measure.scale }
{}
