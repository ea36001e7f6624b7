//! Commands that ask a control: each request, what the control takes it for, and what is made of its reply.

use crate::controls::{asked, is_text, sent, text_of};
use book_desk_asking::{
    Answer, Decision, Fault, Part, Question, Rights, Who, Why, ask_control, receive, request_of,
};
use book_desk_control::{Ending, Exchange, Kind, Outcome};
use std::alloc::{AllocError, Global};
use std::io::{self, ErrorKind, Read, Write};
use std::process::Abort;

const PART: Part<'static> = Part {
    at: None,
    books: false,
    labels: false,
};

const WHY: Why<'static> = Why {
    caller: "ann",
    what: "GET",
    path: "/books/sales",
    destination: None,
    json: false,
};

const WHO: Who<'static> = Who {
    privilege: "read",
    path: "/books/sales",
    denied: true,
    json: false,
};

const RIGHTS: Rights<'static> = Rights {
    at: Some("/books"),
    caller: Some("ann"),
    shared: true,
    json: false,
};

/// A decision on two privileges, and what is sent.
const ASKS: &str =
    "POST /ask HTTP/1.1\r\nHost: localhost\r\nContent-Length: 68\r\n\r\n{\"caller\":\"ann\",\"path\":\"/books/sales\",\"privileges\":[\"read\",\"bind\"]}\n";

/// The request of one resource.
const SHOWS: &str =
    "POST /show HTTP/1.1\r\nHost: localhost\r\nContent-Length: 24\r\n\r\n{\"path\":\"/books/sales\"}\n";

/// The beginning of a head, of 73 bytes and three fields, of a reply without a body.
const EMPTY: &str =
    "HTTP/1.1 200 OK\r\nX-Exit-Status: 0\r\nX-Error-Length: 0\r\nContent-Length: 0\r\n";

/// Replies, and the status, what is printed, and what is told on standard error.
const REPLIES: &[(&str, &str)] = &[
    (
        "HTTP/1.1 200 OK\r\nX-Exit-Status: 0\r\nX-Error-Length: 0\r\nContent-Type: text/plain\r\nContent-Length: 4\r\nConnection: close\r\n\r\nyes\n",
        "0 \"yes\\n\" \"\"",
    ),
    (CUT, "1 \"yes\\n\" \"no: no\\n\""),
    (
        "HTTP/1.1 503 Service Unavailable\r\nX-Exit-Status: 3\r\nX-Error-Length: 13\r\nContent-Length: 13\r\n\r\nstore: store\n",
        "3 \"\" \"store: store\\n\"",
    ),
    (
        "HTTP/1.1 200 OK\r\nContent-Length: 0\r\nX-EXIT-STATUS: 255\r\nx-error-length: 0\r\n\r\n",
        "255 \"\" \"\"",
    ),
];

/// What is no reply of a control to a command.
const OTHERS: &[&str] = &[
    "",
    "yes\n",
    "220 mail.example.org\r\n",
    "GET /health HTTP/1.1\r\n\r\n",
    "HTTP/1.1 200 OK\r\nContent-Length: 4\r\n\r\nyes\n",
    "HTTP/1.1 200 OK\r\nX-Exit-Status: 0\r\nContent-Length: 4\r\n\r\nyes\n",
    "HTTP/1.1 200 OK\r\nX-Error-Length: 0\r\nContent-Length: 4\r\n\r\nyes\n",
    "HTTP/1.1 200 OK\r\nX-Exit-Status: 0\r\nX-Error-Length: 0\r\n\r\nyes\n",
    "HTTP/1.1 200 OK\r\nX-Exit-Status: 256\r\nX-Error-Length: 0\r\nContent-Length: 4\r\n\r\nyes\n",
    "HTTP/1.1 200 OK\r\nX-Exit-Status: -1\r\nX-Error-Length: 0\r\nContent-Length: 4\r\n\r\nyes\n",
    "HTTP/1.1 200 OK\r\nX-Exit-Status: 0\r\nX-Exit-Status: 0\r\nX-Error-Length: 0\r\nContent-Length: 4\r\n\r\nyes\n",
    "HTTP/1.1 200 OK\r\nX-Exit-Status: 0\r\nX-Error-Length: 5\r\nContent-Length: 4\r\n\r\nyes\n",
    "HTTP/1.1 200 OK\r\nX-Exit-Status: 0\r\nX-Error-Length: 0\r\nTransfer-Encoding: chunked\r\nContent-Length: 4\r\n\r\nyes\n",
    "HTTP/1.1 404 Not Found\r\nContent-Type: application/json\r\nContent-Length: 21\r\nConnection: close\r\n\r\n{\"error\":\"not-found\"}",
];

/// A control at the other end: its reply as far as it is not read yet, and what it was sent, five bytes at once at most.
#[derive(Drop)]
struct Peer<'a> {
    sends: &'a [u8],
    told: Vec<u8>,
}

impl Read for Peer<'_> {
    fn read(&mut self, buf: &mut [u8]) -> io::Result<usize> {
        self.sends.read(buf)
    }
}

impl Write for Peer<'_> {
    fn write(&mut self, buf: &[u8]) -> io::Result<usize> {
        let count = buf.len().min(5);
        self.told.extend_from_slice(&buf[..count])?;
        Ok(count)
    }

    fn flush(&mut self) -> io::Result<()> {
        Ok(())
    }
}

/// A writer that takes nothing.
#[derive(Drop)]
struct Full;

impl Write for Full {
    fn write(&mut self, _buf: &[u8]) -> io::Result<usize> {
        Err(ErrorKind::Other.into())
    }

    fn flush(&mut self) -> io::Result<()> {
        Err(ErrorKind::Other.into())
    }
}

/// A question has this request, which the control takes for this.
fn is_asked(rt: &(impl Abort + AllocGlobal), question: &Question<'_>, wanted: &str, words: &str) {
    let request = request_of(rt.alloc(), question).expect(rt, "memory");
    is_text(rt, text_of(request.as_slice()), wanted);
    let mut exchange = Exchange::new(rt.alloc());
    let text = asked(rt, &mut exchange, request.as_slice());
    is_text(rt, text.as_str(), words);
}

/// Privileges.
fn privileges(alloc: Global) -> Result<Vec<String>, AllocError> {
    let mut list = Vec::new(alloc);
    list.push(String::from_str(alloc, "read")?)?;
    list.push(String::from_str(alloc, "bind")?)?;
    Ok(list)
}

/// A question, what is sent, and what the control takes it for, in words.
type Asked = (Question<'static>, &'static str, &'static str);

fn are_asked(rt: &(impl Abort + AllocGlobal), rows: &[Asked]) {
    for (question, wanted, words) in rows {
        is_asked(rt, question, wanted, words);
    }
}

#[test]
fn questions_are_asked(rt: HostRuntime) {
    let rows = [
        (
            Question::Audit(PART),
            "POST /audit HTTP/1.1\r\nHost: localhost\r\nContent-Length: 31\r\n\r\n{\"books\":false,\"labels\":false}\n",
            "audit none no no",
        ),
        (
            Question::Audit(Part {
                at: Some("/books"),
                books: true,
                labels: false,
            }),
            "POST /audit HTTP/1.1\r\nHost: localhost\r\nContent-Length: 44\r\n\r\n{\"at\":\"/books\",\"books\":true,\"labels\":false}\n",
            "audit /books yes no",
        ),
        (
            Question::Why(WHY),
            "POST /why HTTP/1.1\r\nHost: localhost\r\nContent-Length: 65\r\n\r\n{\"caller\":\"ann\",\"what\":\"GET\",\"path\":\"/books/sales\",\"json\":false}\n",
            "why ann GET /books/sales none no",
        ),
        (
            Question::Why(Why {
                caller: "-",
                what: "MOVE",
                path: "/books/sales/a\"b.vcf",
                destination: Some("/books/old/a.vcf"),
                json: true,
            }),
            "POST /why HTTP/1.1\r\nHost: localhost\r\nContent-Length: 105\r\n\r\n{\"caller\":\"-\",\"what\":\"MOVE\",\"path\":\"/books/sales/a\\\"b.vcf\",\"destination\":\"/books/old/a.vcf\",\"json\":true}\n",
            "why - MOVE /books/sales/a\"b.vcf /books/old/a.vcf yes",
        ),
        (
            Question::Who(WHO),
            "POST /who HTTP/1.1\r\nHost: localhost\r\nContent-Length: 70\r\n\r\n{\"privilege\":\"read\",\"path\":\"/books/sales\",\"denied\":true,\"json\":false}\n",
            "who read /books/sales yes no",
        ),
        (
            Question::Rights(RIGHTS),
            "POST /rights HTTP/1.1\r\nHost: localhost\r\nContent-Length: 58\r\n\r\n{\"at\":\"/books\",\"caller\":\"ann\",\"shared\":true,\"json\":false}\n",
            "rights /books ann yes no",
        ),
        (
            Question::Rights(Rights {
                at: None,
                caller: None,
                shared: false,
                json: false,
            }),
            "POST /rights HTTP/1.1\r\nHost: localhost\r\nContent-Length: 30\r\n\r\n{\"shared\":false,\"json\":false}\n",
            "rights none none no no",
        ),
        (
            Question::Show("/books/sales"),
            "POST /show HTTP/1.1\r\nHost: localhost\r\nContent-Length: 24\r\n\r\n{\"path\":\"/books/sales\"}\n",
            "show /books/sales",
        ),
        (
            Question::Dump,
            "GET /dump HTTP/1.1\r\nHost: localhost\r\nContent-Length: 0\r\n\r\n",
            "dump",
        ),
    ];
    are_asked(&rt, &rows);
}

#[test]
fn policies_are_sent(rt: HostRuntime) {
    let rows = [
        (
            Question::Check(b"version = 1\n", false),
            "POST /check HTTP/1.1\r\nHost: localhost\r\nContent-Length: 12\r\n\r\nversion = 1\n",
            "check no version = 1\n",
        ),
        (
            Question::Check(b"version = 1\n", true),
            "POST /check?strict HTTP/1.1\r\nHost: localhost\r\nContent-Length: 12\r\n\r\nversion = 1\n",
            "check yes version = 1\n",
        ),
        (
            Question::Differs(b"version = 1\n", false),
            "POST /differs HTTP/1.1\r\nHost: localhost\r\nContent-Length: 12\r\n\r\nversion = 1\n",
            "differs no version = 1\n",
        ),
        (
            Question::Differs(b"version = 1\n", true),
            "POST /differs?strict HTTP/1.1\r\nHost: localhost\r\nContent-Length: 12\r\n\r\nversion = 1\n",
            "differs yes version = 1\n",
        ),
        (
            Question::Import(b"version = 1\n"),
            "PUT /policy HTTP/1.1\r\nHost: localhost\r\nContent-Length: 12\r\n\r\nversion = 1\n",
            "policy version = 1\n",
        ),
    ];
    are_asked(&rt, &rows);
}

#[test]
fn a_decision_is_asked(rt: HostRuntime) {
    let list = privileges(rt.alloc()).expect(&rt, "memory");
    let decision = Decision {
        caller: "ann",
        path: "/books/sales",
        privileges: list.as_slice(),
    };
    is_asked(
        &rt,
        &Question::Ask(decision),
        ASKS,
        "ask ann /books/sales read bind",
    );
}

/// What is told of an answer, and of what was printed: the status, both texts; or the fault.
fn told(
    alloc: Global,
    answer: Result<Answer, Fault>,
    printed: &[u8],
) -> Result<String, AllocError> {
    let printed = text_of(printed);
    match answer {
        Ok(Answer { status, told }) => {
            format!(in alloc; "{status} {printed:?} {:?}", text_of(told.as_slice()))
        }
        Err(fault) => format!(in alloc; "{fault:?} {printed:?}"),
    }
}

/// What is made of bytes that come.
fn received(rt: &(impl Abort + AllocGlobal), bytes: &[u8]) -> String {
    let mut reader = bytes;
    let mut printed = Vec::new(rt.alloc());
    let answer = receive(rt.alloc(), &mut reader, &mut printed);
    told(rt.alloc(), answer, printed.as_slice()).expect(rt, "memory")
}

#[test]
fn replies_are_read(rt: HostRuntime) {
    for (reply, wanted) in REPLIES {
        is_text(&rt, received(&rt, reply.as_bytes()).as_str(), wanted);
    }
}

#[test]
fn other_replies_are_refused(rt: HostRuntime) {
    for reply in OTHERS {
        is_text(
            &rt,
            received(&rt, reply.as_bytes()).as_str(),
            "Control \"\"",
        );
    }
}

/// 85 bytes are the head, and four are printed before the other seven came.
const CUT: &str =
    "HTTP/1.1 400 Bad Request\r\nX-Exit-Status: 1\r\nX-Error-Length: 7\r\nContent-Length: 11\r\n\r\nyes\nno: no\n";

/// A reply that is cut anywhere is none.
#[test]
fn a_cut_reply_is_refused(rt: HostRuntime) {
    for at in 0..CUT.len() {
        let (front, _) = CUT.as_bytes().split_at(at);
        let wanted = if at < 89 {
            "Control \"\""
        } else {
            "Control \"yes\\n\""
        };
        is_text(&rt, received(&rt, front).as_str(), wanted);
    }
}

/// A head with so many bytes, in a field more.
fn long_head(rt: &(impl Abort + AllocGlobal), count: usize) -> String {
    let mut head = Vec::from_slice(rt.alloc(), EMPTY.as_bytes()).expect(rt, "memory");
    head.extend_from_slice(b"x: ").expect(rt, "memory");
    for _ in 0..count {
        head.push(b'a').expect(rt, "memory");
    }
    head.extend_from_slice(b"\r\n\r\n").expect(rt, "memory");
    received(rt, head.as_slice())
}

/// A head may have 8,192 bytes: 76 before the value, and 4 after it.
#[test]
fn a_head_may_be_long(rt: HostRuntime) {
    is_text(&rt, long_head(&rt, 8_112).as_str(), "0 \"\" \"\"");
    is_text(&rt, long_head(&rt, 8_113).as_str(), "Control \"\"");
}

/// A head with so many fields more.
fn wide_head(rt: &(impl Abort + AllocGlobal), count: usize) -> String {
    let mut head = Vec::from_slice(rt.alloc(), EMPTY.as_bytes()).expect(rt, "memory");
    for _ in 0..count {
        head.extend_from_slice(b"x: y\r\n").expect(rt, "memory");
    }
    head.extend_from_slice(b"\r\n").expect(rt, "memory");
    received(rt, head.as_slice())
}

/// A head may have 64 fields.
#[test]
fn a_head_may_have_many_fields(rt: HostRuntime) {
    is_text(&rt, wide_head(&rt, 61).as_str(), "0 \"\" \"\"");
    is_text(&rt, wide_head(&rt, 62).as_str(), "Control \"\"");
}

/// What is written and can't be is a fault of its own, whatever is told on standard error.
#[test]
fn output_may_fail(rt: HostRuntime) {
    let mut reader = CUT.as_bytes();
    let answer = receive(rt.alloc(), &mut reader, &mut Full);
    let text = told(rt.alloc(), answer, b"").expect(&rt, "memory");
    is_text(&rt, text.as_str(), "Output \"\"");
}

/// The reply of a control to a command that wrote 10,000 bytes and told three.
fn long_reply(rt: &(impl Abort + AllocGlobal)) -> Vec<u8> {
    let mut body = vec![in rt.alloc(); b'a'; 10_000].expect(rt, "memory");
    body.extend_from_slice(b"no\n").expect(rt, "memory");
    let mut exchange = Exchange::new(rt.alloc());
    let ending = Ending { status: 1, told: 3 };
    exchange
        .answer(rt.alloc(), Outcome::Refused, Some(ending), Kind::Text, body)
        .expect(rt, "memory");
    sent(rt, &mut exchange)
}

/// A whole conversation: the request is sent, and what the command wrote is printed in pieces.
#[test]
fn a_control_is_asked(rt: HostRuntime) {
    let reply = long_reply(&rt);
    let mut peer = Peer {
        sends: reply.as_slice(),
        told: Vec::new(rt.alloc()),
    };
    let mut printed = Vec::new(rt.alloc());
    let answer = ask_control(
        rt.alloc(),
        &mut peer,
        &Question::Show("/books/sales"),
        &mut printed,
    );
    let text = told(rt.alloc(), answer, b"").expect(&rt, "memory");
    is_text(&rt, text.as_str(), "1 \"\" \"no\\n\"");
    is_text(&rt, text_of(peer.told.as_slice()), SHOWS);
    assert_eq!(&rt; printed.len(), 10_000);
    assert!(&rt; printed.iter().all(|byte| *byte == b'a'));
}
