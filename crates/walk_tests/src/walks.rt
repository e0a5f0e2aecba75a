//! Walks of main and of a join, want by want.

ghost use Rattle.std.specs.Prelude.{◌≡◌, ◌<◌, ◌^◌, length, IfOk};

use app_check::check;
use app_eval::{Reply, Walker, Want};
use app_script::parse::parse;
use compiled_script::CompiledScript;
use flow_base::{Ended, Exception, FileOut, Files, Items, Outcome, Path, Text, Value};
use flow_meaning::{Answer, Request};
use run_report::lines::print_exception;
use run_report::value::print_value;
use sqlite_items::Items as ListOf;
use std::alloc::{AllocError, Global};
use std::sync::Arc;
use std::test::Fail;
use text_writer::Writer;

/// The script of a text that has so many apps.
fn compiled(alloc: Global, bytes: &str, apps: usize) -> Result<CompiledScript, Fail>
    requires { apps < 2 ^ 32 }
    ensures { IfOk result (λ script. length script.tree.0 ≡ apps) }
{
    let script = check(alloc, parse(alloc, bytes.as_bytes())?)?;
    if script.script().apps().len() != apps {
        return Err(Fail::new("another number of apps"));
    }
    Ok(CompiledScript::of(alloc, Arc::new(alloc, script)?)?)
}

fn print_values(writer: &mut Writer, values: &[Value]) -> Result<(), AllocError> {
    for value in values {
        writer.add(b" ")?;
        print_value(writer, value)?;
    }
    Ok(())
}

fn print_names(writer: &mut Writer, names: &[Text]) -> Result<(), AllocError> {
    for name in names {
        writer.add(b" to ")?;
        writer.quote(name)?;
    }
    Ok(())
}

fn text(alloc: Global, bytes: &str) -> Result<Text, AllocError> {
    let mut text = Text::new(alloc);
    for byte in bytes.as_bytes() {
        if *byte >= b' ' && *byte <= b'~' {
            text.push(*byte)?;
        }
    }
    Ok(text)
}

fn print_ended(writer: &mut Writer, ended: &Ended) -> Result<(), AllocError> {
    match ended {
        Ended::Raised(exception) => {
            writer.add(b"ended exception ")?;
            print_exception(writer, exception)
        }
        Ended::Value { value, .. } => {
            writer.add(b"ended ")?;
            print_value(writer, value)
        }
    }
}

fn print_request(writer: &mut Writer, request: &Request) -> Result<(), AllocError> {
    match request {
        Request::Call {
            app,
            arguments,
            names,
        } => {
            writer.add(b"call ")?;
            writer.number(*app)?;
            print_values(writer, arguments.as_slice())?;
            print_names(writer, names.as_slice())
        }
        Request::WaitValue(future) => {
            writer.add(b"value ")?;
            print_value(writer, future)
        }
        Request::WaitName(future) => {
            writer.add(b"name ")?;
            print_value(writer, future)
        }
        Request::Print(value) => {
            writer.add(b"print ")?;
            print_value(writer, value)
        }
        Request::Checkpoint => writer.add(b"checkpoint"),
    }
}

fn print_want(writer: &mut Writer, want: &Want) -> Result<(), AllocError> {
    match want {
        Want::Asks(request) => print_request(writer, request),
        Want::Ended(ended) => print_ended(writer, ended),
    }
}

/// What a walk is told.
#[derive(Clone, Copy)]
enum Told {
    Begin,
    /// The future of the call of this number, with so many outputs.
    Future(u32, u32),
    /// A task has this value.
    Value(i64),
    /// A task has the value 1 and the files `a` and `b` of the text `t`.
    Files,
    /// A task has raised ValueError.
    Raised,
    Go,
}

fn future(alloc: Global, number: u32, outputs: u32) -> Result<Value, AllocError> {
    let mut path = Path::new(alloc);
    path.push(number)?;
    Ok(Value::Future { path, outputs })
}

fn files(alloc: Global) -> Result<Files, AllocError> {
    let mut files = ListOf::new(alloc);
    for name in ["a", "b"] {
        files.push(FileOut {
            name: text(alloc, name)?,
            content: text(alloc, "t")?,
        })?;
    }
    Ok(files)
}

fn ended(value: i64, files: Files) -> Reply {
    Reply::Told(Answer::Outcome(Outcome::Value {
        value: Value::Int(value),
        files,
    }))
}

fn reply(alloc: Global, told: Told) -> Result<Reply, AllocError> {
    match told {
        Told::Begin => Ok(Reply::Begin),
        Told::Future(number, outputs) => {
            let future = future(alloc, number, outputs)?;
            Ok(Reply::Told(Answer::Called(future)))
        }
        Told::Value(value) => Ok(ended(value, ListOf::new(alloc))),
        Told::Files => Ok(ended(1, files(alloc)?)),
        Told::Raised => {
            let outcome = Outcome::Failed(Exception::ValueError);
            Ok(Reply::Told(Answer::Outcome(outcome)))
        }
        Told::Go => Ok(Reply::Told(Answer::Go)),
    }
}

/// The next want after what it is told, as text; none where it may not be resumed.
fn next(alloc: Global, walker: &mut Walker, told: Told) -> Result<String, Fail> {
    if walker.rest() == 0 {
        return Ok(String::new(alloc));
    }
    let want = walker.resume(alloc, reply(alloc, told)?)?;
    let mut writer = Writer::new(alloc);
    print_want(&mut writer, &want)?;
    Ok(String::from_utf8(writer.into_bytes())?)
}

const MAIN: &str = "
app add(a, b) { return a + b; }

app halves(t) outputs 2 {
  write 0, t;
  write 1, t;
  return 1;
}

main {
  let x = call add(1, 2);
  let h = call halves(\"t\") to (\"a\", \"b\");
  let s = 0;
  for i in [call add(s, 1), x] {
    s = s + result(i);
    print s;
  }
  checkpoint;
  while exception(output(h, 1)) == \"\" and s < 14 {
    print result(output(h, 0));
    s = s + 1;
  }
  if s == 14 {
    print output(h, 1);
  } else {
    call add(0, 0);
  }
  return x;
}
";

const MAIN_WANTS: [(Told, &str); 14] = [
    (Told::Begin, "call 0 1 2"),
    (Told::Future(1, 0), "call 1 \"t\" to \"a\" to \"b\""),
    (Told::Future(2, 2), "call 0 0 1"),
    (Told::Future(3, 0), "value future 3"),
    (Told::Value(10), "print 10"),
    (Told::Go, "value future 1"),
    (Told::Value(3), "print 13"),
    (Told::Go, "checkpoint"),
    (Told::Go, "name output 2 1"),
    (Told::Files, "value output 2 0"),
    (Told::Files, "print file(\"a\", \"t\")"),
    (Told::Go, "name output 2 1"),
    (Told::Files, "print output 2 1"),
    (Told::Go, "ended future 1"),
];

#[test]
fn main_is_walked_want_by_want(rt: HostRuntime) -> Result<(), Fail> {
    let alloc = rt.alloc();
    let script = compiled(alloc, MAIN, 2)?;
    let mut walker = Walker::main(alloc, &script)?;
    for (told, wanted) in MAIN_WANTS {
        let given = next(alloc, &mut walker, told)?;
        assert_eq!(rt; given.as_str(), wanted);
    }
    Ok(())
}

const RAISING: &str = "
app f() { return 1; }

main {
  let x = call f();
  print exception(x);
  print result(x);
  print 2;
}
";

const RAISING_WANTS: [(Told, &str); 5] = [
    (Told::Begin, "call 0"),
    (Told::Future(1, 0), "name future 1"),
    (Told::Raised, "print \"ValueError\""),
    (Told::Go, "value future 1"),
    (Told::Raised, "ended exception ValueError"),
];

#[test]
fn main_raises_the_exception_of_a_task(rt: HostRuntime) -> Result<(), Fail> {
    let alloc = rt.alloc();
    let script = compiled(alloc, RAISING, 1)?;
    let mut walker = Walker::main(alloc, &script)?;
    for (told, wanted) in RAISING_WANTS {
        let given = next(alloc, &mut walker, told)?;
        assert_eq!(rt; given.as_str(), wanted);
    }
    Ok(())
}

const JOIN: &str = "
app half(n) { return n / 2; }

join app halves(n) {
  let all = [];
  for i in range(0, n) {
    if i % 2 == 0 {
      all = append(all, call half(i));
    }
  }
  return all;
}

main { }
";

const JOIN_WANTS: [(Told, &str); 4] = [
    (Told::Begin, "call 0 0"),
    (Told::Future(1, 0), "call 0 2"),
    (Told::Future(2, 0), "call 0 4"),
    (Told::Future(3, 0), "ended [future 1, future 2, future 3]"),
];

fn five(alloc: Global) -> Result<Items, AllocError> {
    let mut arguments = ListOf::new(alloc);
    arguments.push(Value::Int(5))?;
    Ok(arguments)
}

#[test]
fn a_join_is_walked_call_by_call(rt: HostRuntime) -> Result<(), Fail> {
    let alloc = rt.alloc();
    let script = compiled(alloc, JOIN, 2)?;
    let is_join = script.script().apps()[1].join;
    assert!(rt; is_join);
    if !is_join {
        return Ok(());
    }
    let mut walker = Walker::body(alloc, &script, 1, five(alloc)?)?;
    for (told, wanted) in JOIN_WANTS {
        let given = next(alloc, &mut walker, told)?;
        assert_eq!(rt; given.as_str(), wanted);
    }
    Ok(())
}

const COUNTING: &str = "
main {
  let i = 0;
  while i < 100000 {
    print i;
    i = i + 1;
  }
}
";

/// The last of so many more wants, each behind what was printed.
fn later(alloc: Global, walker: &mut Walker, count: u32) -> Result<String, Fail> {
    let mut want = String::new(alloc);
    for _more in 0..count {
        want = next(alloc, walker, Told::Go)?;
    }
    Ok(want)
}

#[test]
fn a_walk_has_100000_wants(rt: HostRuntime) -> Result<(), Fail> {
    let alloc = rt.alloc();
    let script = compiled(alloc, COUNTING, 0)?;
    let mut walker = Walker::main(alloc, &script)?;
    let first = next(alloc, &mut walker, Told::Begin)?;
    assert_eq!(rt; first.as_str(), "print 0");
    let last = later(alloc, &mut walker, 99999)?;
    assert_eq!(rt; last.as_str(), "print 99999");
    let end = next(alloc, &mut walker, Told::Go)?;
    assert_eq!(rt; end.as_str(), "ended nothing");
    Ok(())
}
