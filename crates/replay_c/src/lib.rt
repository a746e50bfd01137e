// The digest of a list of calls for programs in C or Rust: `temixohuel_replay` of the crate `replay` under its C name,
// with its contract, for every switch and every list of bytes. Assumes nothing.
#![tactic(auto)]

ghost use Rattle.std.specs.Prelude.{◌≡◌};
ghost use Rattle.replay.specs.Replay.{replayed};

// The digest of all answers to the calls, after power-on with the switch.
#[unsafe(no_mangle)]
pub extern "C" fn temixohuel_replay(switch: u8, calls: &[u8]) -> u32
    ensures { result ≡ replayed switch calls.now }
{
    replay::temixohuel_replay(switch, calls)
}
