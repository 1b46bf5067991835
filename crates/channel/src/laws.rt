// A function that stands for a theorem, which is its contract.
ghost use Rattle.channel.specs.Laws.{MeasureLaws};

use super::prices::Channel;

// What holds of the measures of words under every channel of this channel's measure.
pub fn words_measured<C: Channel>(_channel: &C)
    ensures { MeasureLaws C.Measure.scale }
{}
