// How a topic is printed: for each case a name, its numbers and the answer.
use std::convert::AsSlice;
use std::fmt;

// Prints a line for each case of a topic.
pub(crate) fn all<C, A, F>(
    rt: &HostRuntime,
    name: &str,
    cases: &[C],
    answer: F,
) -> anyhow::Result<()>
where
    C: AsSlice<i32> + Copy,
    A: fmt::Display + Drop,
    F: Fn(C) -> anyhow::Result<A>,
    requires { F.IsAlwaysCallable answer }
{
    for case in cases {
        let said = answer(*case)?;
        rt.print(name)?;
        for n in case.as_slice() {
            print!(rt; " {n}")?;
        }
        println!(rt; ": {said}")?;
    }
    Ok(())
}
