// What power-on makes (paper 01, "Power-on").
ghost use Rattle.std.specs.Prelude.{◌≡◌};
ghost use Rattle.controller.specs.Inner.Power.{is_bad_of, fresh_settings_of, fresh_run_of, fresh_hot_of, fresh_of};

use crate::state::{Cold, Controller, Counters, Flags, Hot, Pause, Plan, Run, Settings, Wires};
use receiver::Receiver;
use reply::{Position, Travel};

// There is no switch over 15, and none that is 12.
pub(crate) fn is_bad(switch: u8) -> bool
    ensures { result ≡ is_bad_of switch }
{
    15 < switch || switch == 12
}

// V 10,000, a 16, watch 1 (axes; paper 02, 2/14), all else 0.
fn fresh_settings() -> Settings
    ensures { result ≡ fresh_settings_of }
{
    Settings {
        speed: 10000,
        slope: 16,
        dwell: 0,
        polarity: 0,
        low: 0,
        high: 0,
        watch: 1,
    }
}

// No move runs.
fn fresh_run() -> Run
    ensures { result ≡ fresh_run_of }
{
    Run {
        length: 0,
        gone: 0,
        speed: 0,
        phase: 0,
        master: 0,
        moving: false,
        stopping: false,
        ticks: 0,
        rounds: 0,
    }
}

// What a tick alters, with this plan: travels, positions, dwell and flags are those of no move yet.
fn fresh_hot(switch: u8, plan: Plan) -> Hot
    ensures { result ≡ fresh_hot_of switch plan }
{
    let counters = Counters {
        travels: [Travel(0); 5],
        remainders: [0; 5],
        positions: [Position(digits::TOP_BIT); 5],
    };
    let run = fresh_run();
    let general = outputs::general(switch, 0);
    let cells = outputs::axis_cells(switch, 0, plan.minus);
    let wires = Wires { general, cells };
    let pause = Pause {
        left: 0,
        waiting: 0,
        block: 0,
    };
    let flags = Flags {
        wrong: false,
        stopped: false,
        emergency: false,
        sensed: false,
    };
    Hot {
        plan,
        counters,
        run,
        wires,
        pause,
        inputs: 0,
        watch: 0,
        flags,
    }
}

// The controller at power-on: all distances 0, all directions plus.
pub(crate) fn fresh(switch: u8) -> Controller
    ensures { result ≡ fresh_of switch }
{
    let plan = Plan {
        distances: [0; 5],
        minus: [false; 5],
    };
    let settings = fresh_settings();
    let hot = fresh_hot(switch, plan);
    let line = Receiver::new();
    let cold = Cold {
        settings,
        next: plan,
        line,
        switch,
        ident: 0,
        named: false,
    };
    Controller { hot, cold }
}
