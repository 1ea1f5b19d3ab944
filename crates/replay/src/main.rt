// Writes the listing of the script on standard input.
#![tactic(auto)]

fn main(rt: HostRuntime) {
    player::replay(&rt);
}
