// The case of a plan: the input of the program `plan`.
pub fn plan_case(rt: &impl Print, input: &[u8]) {
    rt.write_all(&answer::answer(input)).unwrap_or(());
}
