// A command line, told as one line of text.
use cell_base::{Level, Memory, Text};
use command_help::complaint;
use command_line::{
    CommandLine, Name, PipeCommand, Progress, ServeOptions, SimPlan, Topic, read_command,
};
use std::alloc::{AllocError, Global};

fn level_word(level: Level) -> &'static str {
    match level {
        Level::Rc => "rc",
        Level::Ra => "ra",
        Level::Cc => "cc",
    }
}

fn push_number(alloc: Global, out: &mut String, number: u64) -> Result<(), AllocError> {
    out.push_str(format!(in alloc; " {number}")?.as_str())
}

fn push_path(out: &mut String, before: &str, path: &Option<Text>) -> Result<(), AllocError> {
    match path {
        Some(path) => {
            out.push_str(before)?;
            out.push_str(path.as_str())
        }
        None => Ok(()),
    }
}

fn push_pipe(alloc: Global, out: &mut String, pipe: &PipeCommand) -> Result<(), AllocError> {
    out.push_str("pipe ")?;
    out.push_str(level_word(pipe.level))?;
    for word in pipe.words.as_slice() {
        push_number(alloc, out, u64::from(*word))?;
    }
    Ok(())
}

fn push_serve(alloc: Global, out: &mut String, options: &ServeOptions) -> Result<(), AllocError> {
    out.push_str("serve ")?;
    out.push_str(level_word(options.level))?;
    push_number(alloc, out, options.seed)?;
    out.push_str(" ")?;
    out.push_str(options.listen.as_str())?;
    push_number(alloc, out, u64::from(options.workers))?;
    push_number(alloc, out, u64::from(options.accept))?;
    push_path(out, " log ", &options.log)?;
    push_path(out, " setup ", &options.setup)?;
    match options.progress {
        Progress::Told => Ok(()),
        Progress::Quiet => out.push_str(" quiet"),
    }
}

fn push_sim(alloc: Global, out: &mut String, plan: &SimPlan) -> Result<(), AllocError> {
    out.push_str("sim ")?;
    out.push_str(level_word(plan.level))?;
    push_number(alloc, out, plan.seed)?;
    push_number(alloc, out, u64::from(plan.sessions))?;
    push_number(alloc, out, u64::from(plan.queries))?;
    push_path(out, " log ", &plan.log)
}

fn push_check(out: &mut String, path: &Text, wide: bool) -> Result<(), AllocError> {
    out.push_str(if wide { "wide " } else { "check " })?;
    out.push_str(path.as_str())
}

fn topic_word(topic: Topic) -> &'static str {
    match topic {
        Topic::Program => "the program",
        Topic::Command(Name::Pipe) => "pipe",
        Topic::Command(Name::Serve) => "serve",
        Topic::Command(Name::Check) => "check",
        Topic::Command(Name::Judge) => "judge",
        Topic::Command(Name::Sim) => "sim",
        Topic::Command(Name::Stop) => "stop",
    }
}

fn push_line(alloc: Global, out: &mut String, line: &CommandLine) -> Result<(), AllocError> {
    match line {
        CommandLine::Pipe(pipe) => push_pipe(alloc, out, pipe),
        CommandLine::Serve(options) => push_serve(alloc, out, options),
        CommandLine::Check { path, wide } => push_check(out, path, *wide),
        CommandLine::Judge { path } => {
            out.push_str("judge ")?;
            out.push_str(path.as_str())
        }
        CommandLine::Sim(plan) => push_sim(alloc, out, plan),
        CommandLine::Stop { address } => {
            out.push_str("stop ")?;
            out.push_str(address.as_str())
        }
        CommandLine::Help(topic) => {
            out.push_str("help about ")?;
            out.push_str(topic_word(*topic))
        }
        CommandLine::Version => out.push_str("version"),
        CommandLine::Unknown => out.push_str("unknown"),
    }
}

// The words with a bar between two of them, as texts.
fn texts(alloc: Global, words: &str) -> Result<Vec<Text>, Memory> {
    let mut texts = Vec::new(alloc);
    for word in words.as_bytes().split(|byte| *byte == b'|') {
        let Ok(text) = Text::from_bytes(alloc, word) else {
            return Err(Memory);
        };
        texts.push(text)?;
    }
    Ok(texts)
}

// Whether this is what the words are.
fn is(alloc: Global, words: &[Text], told: &str) -> Result<bool, Memory> {
    let line = read_command(alloc, words)?;
    let mut out = String::new(alloc);
    push_line(alloc, &mut out, &line)?;
    Ok(out.as_str() == told)
}

/// Whether no words at all are no command.
pub fn is_none(alloc: Global) -> Result<bool, Memory> {
    is(alloc, &[], "unknown")
}

// Whether this is what the words with bars are.
fn is_told(alloc: Global, words: &str, told: &str) -> Result<bool, Memory> {
    let texts = texts(alloc, words)?;
    is(alloc, texts.as_slice(), told)
}

/// Whether the words with bars are told so, each.
pub fn are(alloc: Global, cases: &[(&str, &str)]) -> Result<bool, Memory> {
    for case in cases {
        if !is_told(alloc, case.0, case.1)? {
            return Ok(false);
        }
    }
    Ok(true)
}

/// Whether the words with bars are no command, each.
pub fn are_unknown(alloc: Global, cases: &[&str]) -> Result<bool, Memory> {
    for words in cases {
        if !is_told(alloc, *words, "unknown")? {
            return Ok(false);
        }
    }
    Ok(true)
}

// Whether this is said of the words.
fn complains(alloc: Global, words: &[Text], said: &str) -> Result<bool, Memory> {
    let line = complaint(alloc, words)?;
    Ok(line.as_str() == said)
}

/// Whether this is said where there are no words.
pub fn complains_of_none(alloc: Global, said: &str) -> Result<bool, Memory> {
    complains(alloc, &[], said)
}

// Whether the words with bars are no command, and this is said of them.
fn is_refused(alloc: Global, words: &str, said: &str) -> Result<bool, Memory> {
    let texts = texts(alloc, words)?;
    Ok(is(alloc, texts.as_slice(), "unknown")? && complains(alloc, texts.as_slice(), said)?)
}

/// The first of these words with bars that are a command, or of which something else is said; or empty words.
pub fn first_unsaid<'a>(alloc: Global, cases: &[(&'a str, &str)]) -> Result<&'a str, Memory> {
    for case in cases {
        if !is_refused(alloc, case.0, case.1)? {
            return Ok(case.0);
        }
    }
    Ok("")
}
