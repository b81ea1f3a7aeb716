// A trial session with every refusal that a session can show, leading zeros, and cuts that wait, are replaced, kept and
// dropped.
#![tactic(auto)]

fn main(rt: HostRuntime) {
    console::run_session(rt.stdin(), rt.stdout());
}
