//! Commands that ask a server at its control, in the place of a store's file: they print and end as over its store.

use book_desk_app::{BROKEN, Failure, InputFault, Lines, tell_line};
use book_desk_asking::{Answer, Decision, Fault, Part, Question, Rights, Who, Why, ask_control};
use book_desk_checks::check;
use book_desk_files::{Stage, read_policy_file, tell_stage};
use book_desk_questions::Words;
use book_desk_serving::given_policy;
use book_limits::MAX_POLICY_BYTES;
use std::io::Write;
use std::os::unix::net::UnixStream;

/// The line that tells that nobody answers as a control does.
const CONTROL_FAILED: &[u8] = b"control: failed\n";

/// What a command asks of a server.
pub fn question_of<'a>(words: &Words<'a>) -> Question<'a> {
    match words {
        Words::Why(why) => Question::Why(Why {
            caller: why.caller,
            what: why.what,
            path: why.path,
            destination: why.destination,
            json: why.json,
        }),
        Words::Who(who) => Question::Who(Who {
            privilege: who.privilege,
            path: who.path,
            denied: who.denied,
            json: who.json,
        }),
        Words::Rights(rights) => Question::Rights(Rights {
            at: rights.at,
            caller: rights.caller,
            shared: rights.shared,
            json: rights.json,
        }),
        Words::Decision(decision) => Question::Ask(Decision {
            caller: decision.caller,
            path: decision.path,
            privileges: decision.privileges,
        }),
        Words::Part(part) => Question::Audit(Part {
            at: part.at,
            books: part.wanted.listed,
            labels: part.wanted.labels,
        }),
        Words::Show(path) => Question::Show(*path),
    }
}

/// The question of a whole audit.
pub fn whole_audit() -> Question<'static> {
    Question::Audit(Part {
        at: None,
        books: false,
        labels: false,
    })
}

/// Tells that nobody answers as a control does.
fn tell_no_control<E: Lines>(errors: &mut E) -> u8 {
    errors.put(CONTROL_FAILED);
    BROKEN
}

/// Asks the control at a path, and prints and tells what it answers.
pub fn ask_at<W: Write, E: Lines>(
    rt: &HostRuntime,
    path: &str,
    question: &Question<'_>,
    writer: &mut W,
    errors: &mut E,
) -> u8 {
    let Ok(stream) = UnixStream::connect(rt, path) else {
        return tell_no_control(errors);
    };
    match ask_control(rt.alloc(), stream, question, writer) {
        Ok(Answer { status, told }) => {
            errors.put(told.as_slice());
            status
        }
        Err(Fault::Control) => tell_no_control(errors),
        Err(Fault::Output) => tell_line(errors, &Failure::Output),
    }
}

/// The bytes of the policy's file.
///
/// # Errors
///
/// `Input` where it can't be read.
fn policy_bytes(rt: &HostRuntime, name: &str) -> Result<Vec<u8>, Failure> {
    match read_policy_file(rt, Some(name))? {
        Some(bytes) => Ok(bytes),
        None => Err(Failure::Input(InputFault::Read)),
    }
}

/// That bytes are a policy. They are copied.
///
/// # Errors
///
/// As `given_policy`; and `Input` where there is no memory for the copy.
fn has_policy(rt: &HostRuntime, bytes: &[u8]) -> Result<(), Failure> {
    let Ok(copy) = Vec::from_slice(rt.alloc(), bytes) else {
        return Err(Failure::Input(InputFault::Read));
    };
    let policy = given_policy(rt.alloc(), Some(copy))?;
    drop(policy);
    Ok(())
}

/// The bytes of a policy's file that is a policy.
///
/// # Errors
///
/// As `policy_bytes` and `has_policy`.
fn sound_policy(rt: &HostRuntime, name: &str) -> Result<Vec<u8>, Failure> {
    let bytes = policy_bytes(rt, name)?;
    has_policy(rt, bytes.as_slice())?;
    Ok(bytes)
}

/// The bytes of a policy's file, which a control takes.
///
/// # Errors
///
/// As `policy_bytes`; and where they are too many to be asked of a control, as `has_policy`.
fn sent_policy(rt: &HostRuntime, name: &str) -> Result<Vec<u8>, Failure> {
    let bytes = policy_bytes(rt, name)?;
    if bytes.len() > MAX_POLICY_BYTES {
        has_policy(rt, bytes.as_slice())?;
    }
    Ok(bytes)
}

/// The command `import` of the server whose control is at a path. The least fault of the policy is told as over a store, and
/// then nothing is sent.
pub fn import_at<W: Write, E: Lines>(
    rt: &HostRuntime,
    path: &str,
    policy: &str,
    writer: &mut W,
    errors: &mut E,
) -> u8 {
    match sound_policy(rt, policy) {
        Ok(bytes) => {
            tell_stage(rt, Stage::Adopting);
            ask_at(
                rt,
                path,
                &Question::Import(bytes.as_slice()),
                writer,
                errors,
            )
        }
        Err(failure) => tell_line(errors, &failure),
    }
}

/// The command `differs` of the server whose control is at a path.
pub fn differs_at<W: Write, E: Lines>(
    rt: &HostRuntime,
    path: &str,
    policy: &str,
    strict: bool,
    writer: &mut W,
    errors: &mut E,
) -> u8 {
    match sent_policy(rt, policy) {
        Ok(bytes) => {
            let question = Question::Differs(bytes.as_slice(), strict);
            ask_at(rt, path, &question, writer, errors)
        }
        Err(failure) => tell_line(errors, &failure),
    }
}

/// The command `check` of the server whose control is at a path. Of a policy that is too long for that the fault is told here.
pub fn check_at<W: Write, E: Lines>(
    rt: &HostRuntime,
    path: &str,
    policy: &str,
    strict: bool,
    writer: &mut W,
    errors: &mut E,
) -> u8 {
    let bytes = match policy_bytes(rt, policy) {
        Ok(bytes) => bytes,
        Err(failure) => return tell_line(errors, &failure),
    };
    if bytes.len() > MAX_POLICY_BYTES {
        return check(rt.alloc(), bytes, strict, writer, errors);
    }
    let question = Question::Check(bytes.as_slice(), strict);
    ask_at(rt, path, &question, writer, errors)
}
