// What a C program calls to salvage a payload: the function of host_salvage, exported with the same contract. It stands apart from host_c, and so in an object of its own: a second
// caller of the reader's parts would keep them out of the loop of
// `read`, which would become slower.
#![tactic(auto)]

ghost use Rattle.std.specs.Prelude.{◌≡◌};
ghost use Rattle.salvaging.specs.Salvage.{salvaging};

use salvaging::SalvageAnswer;

// Salvages a payload: without the known elements that reading refuses. Accepted: what is left is the first bytes of the lent buffer, and no other byte of it changes. Refused: none changes.
#[unsafe(no_mangle)]
pub extern "C" fn skriemelt_salvage(payload: &[u8], out: &mut [u8]) -> SalvageAnswer
    ensures { (record { answer = result; out = out.new }) ≡ salvaging payload.now out.old }
{
    host_salvage::skriemelt_salvage(payload, out)
}
