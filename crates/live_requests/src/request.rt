// What a line asks.
ghost use Rattle.std.specs.Prelude.{◌≡◌, ◌≤◌, false, length, take, drop, codes, if◌then◌else◌, IfOk, OnErr};
ghost use Rattle.std.specs.Str.{bytes_eq};
ghost use Rattle.debugger_scripts.specs.pisa_scripts.Lines.{short_number as short_number_of};
ghost use Rattle.debugger_scripts.specs.pisa_scripts.declared.lines.TheConstants.{MOST_SCRIPT};
ghost use Rattle.debugger_scripts.specs.Scripts.{script_of};
ghost use Rattle.live_requests.specs.Requests.{request_asked, read_as, of_the_fault, of_a_call, of_a_limit, long_of, other_of, or_other, request_of, request_name, is_quit};

use debugger_scripts::{Command, ScriptError, read_script, short_number};
use std::alloc::Global;
use two_way_debugger::NoMemory;

/// What a line asks.
#[derive(Clone, Copy, PartialEq, Eq, Debug)]
pub enum Request {
    /// Nothing: the line is blank.
    Nothing,
    /// A command of a script.
    Carry(Command),
    /// `stack`: the active calls.
    Stack,
    /// `regs E`: the fields and variables of the call with so many active calls.
    RegsOf(u64),
    /// `fault`: what fails if one more move is made.
    Fault,
    /// `fault cells A N`: the objects and arrays of so many names from one on, as they are then.
    FaultCells(u32, u32),
    /// `value NAME`: the value of a variable, field or element. `name_in` gives the name.
    Value,
    /// `heap`: how much of the heap is in use, and the free blocks.
    Heap,
    /// `spend`: what the run has cost up to the position.
    Spend,
    /// `limit N`: from now on a request makes at most so many moves.
    Limit(u64),
    /// `quit`: the end of the session.
    Quit,
    /// The line is no request.
    Bad,
}

/// What a line asks. It is read as a script of this one line, except `quit`, `stack` and `fault`. A
/// line that is no script may be another request.
pub fn read_request(alloc: Global, line: &[u8]) -> Result<Request, NoMemory>
    requires { length line.now ≤ MOST_SCRIPT }
    ensures request { IfOk result (λ request. request ≡ request_of line.now) }
    ensures quit { OnErr result (is_quit (request_of line.now) ≡ false) }
{
    if is_word(line, b"quit") {
        return Ok(Request::Quit);
    }
    if is_word(line, b"stack") {
        return Ok(Request::Stack);
    }
    if is_word(line, b"fault") {
        return Ok(Request::Fault);
    }
    read_commands(alloc, line)
}

fn is_word(line: &[u8], word: &[u8]) -> bool
    ensures { result ≡ bytes_eq line.now word.now }
{
    line == word
}

// What a script of this one line does, or else another line.
fn read_commands(alloc: Global, line: &[u8]) -> Result<Request, NoMemory>
    requires { length line.now ≤ MOST_SCRIPT }
    ensures { IfOk result (λ request. request ≡ or_other line.now (script_of line.now)) }
{
    match read_script(alloc, line) {
        Ok(commands) => Ok(asked_by(&commands)),
        Err(ScriptError::BadCommand { line: _ }) => read_other(alloc, line),
        Err(ScriptError::NoMemory) => Err(NoMemory),
    }
}

// What a line asks that is no script.
fn read_other(alloc: Global, line: &[u8]) -> Result<Request, NoMemory>
    requires { length line.now ≤ MOST_SCRIPT }
    ensures { IfOk result (λ request. request ≡ other_of line.now) }
{
    if is_word(line, b"heap") {
        return Ok(Request::Heap);
    }
    if is_word(line, b"spend") {
        return Ok(Request::Spend);
    }
    if line.len() < 6 {
        return Ok(Request::Bad);
    }
    read_long(alloc, line)
}

// What a line asks that begins with a word and a space.
fn read_long(alloc: Global, line: &[u8]) -> Result<Request, NoMemory>
    requires size { length line.now ≤ MOST_SCRIPT }
    requires long { 6 ≤ length line.now }
    ensures { IfOk result (λ request. request ≡ long_of line.now) }
{
    let (word, rest) = line.split_at(6);
    if is_word(word, b"fault ") {
        return read_cells(alloc, rest);
    }
    if is_word(word, b"value ") {
        return Ok(Request::Value);
    }
    if is_word(word, b"limit ") {
        return Ok(read_limit(rest));
    }
    Ok(read_call(line))
}

// `limit N`, or no request.
fn read_limit(word: &[u8]) -> Request
    ensures { result ≡ of_a_limit (short_number_of word.now) }
{
    match short_number(word) {
        None => Request::Bad,
        Some(most) => Request::Limit(most),
    }
}

// `regs E`, or no request.
fn read_call(line: &[u8]) -> Request
    requires { 6 ≤ length line.now }
    ensures { result ≡ (if bytes_eq (take 5 line.now) (codes "regs ")
        then of_a_call (short_number_of (drop 5 line.now)) else Request.Bad) }
{
    let (word, rest) = line.split_at(5);
    if !is_word(word, b"regs ") {
        return Request::Bad;
    }
    match short_number(rest) {
        None => Request::Bad,
        Some(depth) => Request::RegsOf(depth),
    }
}

// What a script of this one line asks of the step that fails.
fn read_cells(alloc: Global, line: &[u8]) -> Result<Request, NoMemory>
    requires { length line.now ≤ MOST_SCRIPT }
    ensures { IfOk result (λ request. request ≡ of_the_fault (read_as (script_of line.now))) }
{
    match read_script(alloc, line) {
        Ok(commands) => Ok(cells_asked(asked_by(&commands))),
        Err(ScriptError::BadCommand { line: _ }) => Ok(Request::Bad),
        Err(ScriptError::NoMemory) => Err(NoMemory),
    }
}

// Only `cells` is asked of the step that fails.
fn cells_asked(request: Request) -> Request
    ensures { result ≡ of_the_fault request }
{
    match request {
        Request::Carry(Command::Cells(from, count)) => Request::FaultCells(from, count),
        _ => Request::Bad,
    }
}

// A line has at most one command.
fn asked_by(commands: &[Command]) -> Request
    ensures { result ≡ request_asked commands.now }
{
    match commands {
        [] => Request::Nothing,
        [command] => Request::Carry(*command),
        _ => Request::Bad,
    }
}

/// The name of `value NAME`.
pub fn name_in(line: &[u8]) -> &[u8]
    ensures { result.now ≡ request_name line.now }
{
    if line.len() < 6 {
        return &[];
    }
    let (_word, name) = line.split_at(6);
    name
}
