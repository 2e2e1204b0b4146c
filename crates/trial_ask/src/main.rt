// `keys ask`: every row of Table 1, both sides of every limit and every request over the built-in sheet. stdin and stdout are what the second implementation makes.
#![tactic(auto)]

fn main(rt: HostRuntime) {
    desk::run(&rt, &rt.stderr());
}
