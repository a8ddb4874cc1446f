// The program on the files of document 01's P16, for `rt ci` to run and to hold to its stored output. Its own exit status says nothing:
// `namecheck_main` hands on that of the same function.
#![tactic(auto)]

fn main(rt: HostRuntime) {
    let _ = namecheck::namecheck_run(&rt);
}
