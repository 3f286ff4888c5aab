// What a C program calls to salvage a payload, as a library; host_salvage_c exports it. It stands apart from host, and so in an object of its own: a second caller of the reader's parts would keep them out of the loop of
// `read`, which would become slower.
#![tactic(auto)]

ghost use Rattle.std.specs.Prelude.{◌≡◌};
ghost use Rattle.salvaging.specs.Salvage.{salvaging};

use salvaging::SalvageAnswer;

// Salvages a payload: without the known elements that reading refuses. Accepted: what is left is the first bytes of the lent buffer, and no other byte of it changes. Refused: none changes.
pub fn skriemelt_salvage(payload: &[u8], out: &mut [u8]) -> SalvageAnswer
    ensures { (record { answer = result; out = out.new }) ≡ salvaging payload.now out.old }
{
    salvaging::salvage(payload, out)
}
