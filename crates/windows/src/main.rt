// Writes the listing of the windows on standard input. Everything that it does is in the crate `program`.
#![tactic(auto)]

use program::run;

fn main(rt: HostRuntime) {
    run(rt.stdin(), rt.stdout(), false);
}
