// `keys`: document 01's printed walk, and how to go on.
#![tactic(auto)]

fn main(rt: HostRuntime) {
    desk::run(&rt, &rt.stderr());
}
