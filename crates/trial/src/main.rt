// The trial session of document 01: lines of standard input, and a line of standard output for each.
#![tactic(auto)]

fn main(rt: HostRuntime) {
    console::run_session(rt.stdin(), rt.stdout());
}
