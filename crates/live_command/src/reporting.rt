// A text that is put where no session is held.
ghost use Rattle.live_command.specs.Lives.{PutsOnce};

use live_images::{say, status_by};
use plan_serving::Sink;

/// Puts a text, once. The status is this one, if the text is taken.
pub(crate) fn report<K: Sink>(out: &mut K, text: &str, taken: u8) -> u8
    ensures { PutsOnce text.now taken
        (record { bytes = K.written out.old; puts = K.puts out.old })
        (record { bytes = K.written out.new; puts = K.puts out.new }) result }
{
    let answer = say(out, text);
    status_by(taken, answer)
}
