//! Laws of the words, each as the contract of a function that does nothing.

ghost use Rattle.std.specs.Prelude.{◌≡◌, ◌≤◌, List, false, length};
ghost use Rattle.clap.specs.Words.{Text};
ghost use Rattle.cmd_words.specs.Alike.{AskTheSame};
ghost use Rattle.cmd_words.specs.Arguments.{faults_of};
ghost use Rattle.cmd_words.specs.Meaning.{Answers, is_refused};
ghost use Rattle.cmd_words.specs.declared.reading.Request.{Request};

/// `clap` finds at most one fault in any words, so a call for help or the version is never also a refusal.
pub fn words_have_one_fault()
    ensures { (words : List Text) → length (faults_of words) ≤ 1 }
{}

/// Words ask for something if and only if they are not refused.
pub fn words_are_answered_or_refused()
    ensures never_both { (words : List Text) (request : Request) → Answers words request →
        is_refused words ≡ false }
    ensures either { (words : List Text) → is_refused words ≡ false →
        (request : Request) × Answers words request }
{}

/// Words ask for one thing: for help, for the version, or for one command with one value of each option.
pub fn words_ask_for_one_thing()
    ensures { (words : List Text) (one other : Request) → Answers words one → Answers words other →
        AskTheSame one other }
{}
