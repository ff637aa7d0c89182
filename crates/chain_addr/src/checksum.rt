ghost use Rattle.std.specs.Prelude.{◌≡◌, ◌<◌, ◌/◌, ◌%◌, All, fold, length};
ghost use Rattle.chain_addr.specs.Checksum.{part, generated, step, remainder, expanded};

fn part(bits: u32, generator: u32) -> u32
    ensures { result ≡ part bits generator }
{
    if bits % 2 == 1 { generator } else { 0 }
}

fn generated(top: u32) -> u32
    ensures { result ≡ generated top }
{
    part(top, 0x3b6a57b2)
        ^ part(top / 2, 0x26508e6d)
        ^ part(top / 4, 0x1ea119fa)
        ^ part(top / 8, 0x3d4233dd)
        ^ part(top / 16, 0x2a1462b3)
}

#[tactic(auto, unfolding(crate::specs::Checksum::step))]
pub(crate) fn step(state: u32, value: u8) -> u32
    ensures { result ≡ step state value }
{
    (state % 0x2000000 * 32 + u32::from(value)) ^ generated(state / 0x2000000)
}

/// The remainder after some more values.
pub(crate) fn after_values(state: u32, values: &[u8]) -> u32
    ensures { result ≡ fold step state values.now }
{
    values
        .iter()
        .fold(state, |state, value| step(state, *value))
}

/// The remainder of what stands for the prefix.
pub(crate) fn of_prefix(prefix: &[u8]) -> u32
    ensures { result ≡ remainder (expanded prefix.now) }
{
    let high = prefix.iter().fold(1u32, |state, c| step(state, *c / 32));
    let state = step(high, 0);
    prefix.iter().fold(state, |state, c| step(state, *c % 32))
}

/// The six values after which the remainder is 1.
pub(crate) fn closing_values(state: u32) -> [u8; 6]
    ensures small { All (λ v. v < 32) result }
    ensures six { length result ≡ 6 }
    ensures one { fold step state result ≡ 1 }
{
    let open = after_values(state, &[0; 6]) ^ 1;
    [
        value_at(open, 0x2000000),
        value_at(open, 0x100000),
        value_at(open, 0x8000),
        value_at(open, 0x400),
        value_at(open, 0x20),
        value_at(open, 1),
    ]
}

fn value_at(state: u32, unit: u32) -> u8
    requires { 0 < unit }
    ensures { result ≡ state / unit % 32 }
{
    (state / unit % 32) as u8
}
