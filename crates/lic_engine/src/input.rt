//! The text of an input.

ghost use Rattle.std.specs.Prelude.{◌≡◌, ◌≢◌, ℕ, List, IfOk, IsErrOf};
ghost use Rattle.lic_kind.specs.LineRules.{rules_of};
ghost use Rattle.lic_norm.specs.Tokens.{tokens_of};
ghost use Rattle.lic_stream.specs.Stream.{ReadsUpTo};
ghost use Rattle.lic_engine.specs.Failures.{CountsReads, IsOfReading};
ghost use Rattle.lic_engine.specs.Inputs.{IsAccepted, IsRefused, IsUnrefused};

use crate::fault::RunFault;
use crate::memory::Memory;
use lic_kind::Rules;
use lic_norm::{Text, TextFault, Words};
use lic_stream::Source;

/// Reads an input to its end, but no more than one byte more than an input may have, and makes tokens of it as it comes.
pub fn read_text<R: Source>(
    memory: &mut Memory,
    input: &mut R,
    words: &Words,
    rules: &Rules,
) -> Result<Text, RunFault>
    ensures whole { IfOk result (λ text. (bytes : List ℕ)
        × IsAccepted (R.left input.old) (R.left input.new) bytes
        × (text.source ≡ bytes)
        × (text.tokens ≡ tokens_of (rules_of rules.now) words.now bytes)) }
    ensures refused { (fault : _) → IsErrOf result (RunFault.Text fault) → fault ≢ TextFault.Memory
        → IsRefused (R.left input.old) (R.left input.new) fault }
    ensures memory { IsErrOf result (RunFault.Text TextFault.Memory)
        → IsUnrefused (R.left input.old) (R.left input.new) }
    ensures reads { CountsReads result (R.failed input.old) (R.failed input.new) }
    ensures faults { IsOfReading result }
    ensures most { ReadsUpTo (R.left input.old) (R.left input.new) 67108865 }
{
    let mut feeder = memory.feeder(words, rules);
    feeder.read_to_end(input)?;
    match feeder.finish() {
        Ok(text) => Ok(text),
        Err(fault) => Err(RunFault::Text(fault)),
    }
}
