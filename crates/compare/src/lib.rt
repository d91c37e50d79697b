// Two logs given as bytes.
#![tactic(auto)]

ghost use Rattle.std.specs.Prelude.{◌≡◌};
ghost use Rattle.model.specs.Logs.{one_begins, agree, longer};
ghost use Rattle.compare.specs.Itself.{longer_itself};

// "one is a beginning of the other"
#[tactic(auto, using(crate::proofs::Begins::begins_shorter, crate::proofs::Begins::begins_longer))]
fn one_begins(a: &[u8], b: &[u8]) -> bool
    ensures { result ≡ one_begins a.now b.now }
{
    if a.len() < b.len() {
        b.starts_with(a)
    } else {
        a.starts_with(b)
    }
}

// "Two logs given as bytes agree when both lengths are even and one is a beginning of the other."
#[tactic(auto, unfolding(model::specs::Logs::agree))]
pub fn agree(a: &[u8], b: &[u8]) -> bool
    ensures { result ≡ agree a.now b.now }
{
    a.len() % 2 == 0 && b.len() % 2 == 0 && one_begins(a, b)
}

// "A second call hands back the longer log itself, the first if equal, and an empty part of the first if they don't agree."
#[tactic(auto, unfolding(model::specs::Logs::longer, crate::specs::Itself::longer_itself))]
pub fn longer<'a>(a: &'a [u8], b: &'a [u8]) -> &'a [u8]
    ensures { (result.now ≡ longer a.now b.now) × (result ≡ longer_itself a.entry b.entry) }
{
    if !agree(a, b) {
        return &a[..0];
    }
    if a.len() < b.len() { b } else { a }
}
