//! `patchsard serve`.
use ref_command_line::{Stop, say};
use ref_serve::{Input, Output, RunError, State, serve};

/// Answers the calls on standard input, one a line, on standard output. The status is 0 where the input ends.
pub fn serve_calls(rt: &HostRuntime) -> Result<u8, Stop> {
    let mut reader = Input::new(rt.stdin());
    let mut writer = Output::new(rt.stdout());
    let mut state = State::new(rt.alloc());
    match serve(rt.alloc(), &mut reader, &mut writer, &mut state) {
        Ok(()) => Ok(0),
        Err(RunError::Read) => {
            say(rt, "cannot read standard input");
            Err(Stop::Reported)
        }
        Err(RunError::Write) => Err(Stop::Write),
        Err(RunError::Memory) => Err(Stop::Memory),
    }
}
