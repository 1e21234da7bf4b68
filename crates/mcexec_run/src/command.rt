// The words of the program, and the command that they are.
ghost use Rattle.mcexec_run.specs.Commands.{IsAsked, command_of, grow_with, grow_words, order_word, run_words, two_names, walk_words};
ghost use Rattle.mck_word.specs.Numbers.{number_of};
ghost use Rattle.std.specs.Prelude.{◌≡◌, IfSome, string_bytes};

use mck_word::read_number;

/// Which text of a journal is written.
#[derive(Clone, Copy, Debug, PartialEq, Eq)]
pub enum Form {
    Report,
    Trace,
}

/// What the words ask for. The second word is the job's name (of `Grow`, the number of guests), the third of `Replay` and `Audit` the
/// trace's.
#[derive(Clone, Copy, Debug, PartialEq, Eq)]
pub enum Command {
    Run { form: Form },
    Walk { order: u64, form: Form },
    Replay,
    Audit,
    Check,
    Grow { guests: u32, order: u64 },
}

fn order_word(word: &String, form: Form) -> Option<Command>
    ensures value { result ≡ order_word word.now form }
    ensures asked { IfSome result IsAsked }
{
    let order = read_number(word.as_str().as_bytes())?;
    Some(Command::Walk { order, form })
}

fn walk_words(words: &[String]) -> Option<Command>
    ensures value { result ≡ walk_words words.now }
    ensures asked { IfSome result IsAsked }
{
    let Some((third, rest)) = words.split_first() else {
        return Some(Command::Walk {
            order: 0,
            form: Form::Report,
        });
    };
    let Some((fourth, rest)) = rest.split_first() else {
        if third.as_str() == "trace" {
            return Some(Command::Walk {
                order: 0,
                form: Form::Trace,
            });
        }
        return order_word(third, Form::Report);
    };
    if rest.is_empty() && fourth.as_str() == "trace" {
        order_word(third, Form::Trace)
    } else {
        None
    }
}

fn run_words(words: &[String]) -> Option<Command>
    ensures value { result ≡ run_words words.now }
    ensures asked { IfSome result IsAsked }
{
    let Some((third, rest)) = words.split_first() else {
        return Some(Command::Run { form: Form::Report });
    };
    if rest.is_empty() && third.as_str() == "trace" {
        Some(Command::Run { form: Form::Trace })
    } else {
        None
    }
}

fn two_names(command: Command, words: &[String]) -> Option<Command>
    requires { IsAsked command }
    ensures value { result ≡ two_names command words.now }
    ensures asked { IfSome result IsAsked }
{
    let (_trace, rest) = words.split_first()?;
    if rest.is_empty() { Some(command) } else { None }
}

fn grow_with(guests: Option<u64>, order: Option<u64>) -> Option<Command>
    ensures value { result ≡ grow_with guests order }
    ensures asked { IfSome result IsAsked }
{
    let guests = guests?;
    let order = order?;
    if 1 <= guests && guests <= 16 {
        Some(Command::Grow {
            guests: guests as u32,
            order,
        })
    } else {
        None
    }
}

fn number(word: &String) -> Option<u64>
    ensures { result ≡ number_of (string_bytes word.now) }
{
    read_number(word.as_str().as_bytes())
}

fn grow_words(count: &String, words: &[String]) -> Option<Command>
    ensures value { result ≡ grow_words count.now words.now }
    ensures asked { IfSome result IsAsked }
{
    let Some((third, rest)) = words.split_first() else {
        return grow_with(number(count), Some(0));
    };
    if rest.is_empty() {
        grow_with(number(count), number(third))
    } else {
        None
    }
}

/// The command that the words are, if they fit one.
pub fn read_command(words: &[String]) -> Option<Command>
    ensures value { result ≡ command_of words.now }
    ensures asked { IfSome result IsAsked }
{
    let (first, rest) = words.split_first()?;
    let (second, rest) = rest.split_first()?;
    if first.as_str() == "walk" {
        walk_words(rest)
    } else if first.as_str() == "check" {
        if rest.is_empty() {
            Some(Command::Check)
        } else {
            None
        }
    } else if first.as_str() == "replay" {
        two_names(Command::Replay, rest)
    } else if first.as_str() == "audit" {
        two_names(Command::Audit, rest)
    } else if first.as_str() == "run" {
        run_words(rest)
    } else if first.as_str() == "grow" {
        grow_words(second, rest)
    } else {
        None
    }
}
