// Gates, as the bytes of an image give them.
ghost use Rattle.std.specs.Prelude.{◌≡◌, ◌^◌, ◌<◌, if◌then◌else◌};
ghost use Rattle.site_forms.specs.Gates.{gate_in, fits_block, IsGate};
ghost use Rattle.site_forms.specs.declared.gates.Gate.TheVariants.{Broken, Open};

/// How many bytes a body may have.
pub const LONGEST_BODY: u32 = 16_777_216;

/// The place below which each gate stands.
const PAST_GATES: u64 = 1 << 40;

/// What stands at a gate.
#[derive(Clone, Copy)]
pub enum Gate {
    /// No open gate: the log ends.
    Shut,
    /// An open gate without a body and a gate behind it.
    Broken,
    /// An open gate, and behind it a body of this length and a gate.
    Open(u32),
}

/// What the first bytes from a gate on say, at most five, of an image of a size. A gate is open exactly where it is 1.
pub fn gate_of(head: &[u8], at: u64, size: u64) -> Gate
    requires { at < 2 ^ 40 }
    ensures gate { result ≡ gate_in head.now at size }
    ensures within { IsGate at size result }
{
    match head {
        [1, a, b, c, d] => block_of(u32::from_be_bytes([*a, *b, *c, *d]), at, size),
        [1, ..] => Gate::Broken,
        _ => Gate::Shut,
    }
}

// An open gate, where a body of a length and a gate stand behind it.
fn block_of(len: u32, at: u64, size: u64) -> Gate
    requires { at < 2 ^ 40 }
    ensures gate { result ≡ (if fits_block at size len then Open len else Broken) }
    ensures within { IsGate at size result }
{
    if len == 0 || len > LONGEST_BODY {
        return Gate::Broken;
    }
    let next = at + 5 + u64::from(len);
    if next < size && next < PAST_GATES {
        Gate::Open(len)
    } else {
        Gate::Broken
    }
}
