// Writes the same listing as `windows`, with every repair found by trial.
#![tactic(auto)]

use program::run;

fn main(rt: HostRuntime) {
    run(rt.stdin(), rt.stdout(), true);
}
