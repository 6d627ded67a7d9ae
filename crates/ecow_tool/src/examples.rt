//! The status and the message of each end of the program, written by hand once more.
ghost use Rattle.std.specs.Prelude.{◌≡◌, [], codes};
ghost use Rattle.ecow_script.specs.declared.reason.Reason.TheVariants as reason;
ghost use Rattle.ecow_tool.specs.Ends.{exit_text, status_of, unreadable_text};
ghost use Rattle.ecow_tool.specs.declared.program.End.TheVariants as program;
ghost use Rattle.ecow_tool.specs.declared.program.Exit.TheVariants.{After, Usage};

/// The status that the program ends with.
pub fn statuses()
    ensures usage { status_of Usage ≡ 2 }
    ensures done { status_of (After program.Done) ≡ 0 }
    ensures unreadable { status_of (After (program.Unreadable 3001 reason.Arguments)) ≡ 1 }
    ensures not_utf8 { status_of (After program.NotUtf8) ≡ 1 }
    ensures file { status_of (After program.File) ≡ 3 }
    ensures too_large { status_of (After program.TooLarge) ≡ 3 }
    ensures memory { status_of (After program.Memory) ≡ 3 }
    ensures output { status_of (After program.Output) ≡ 3 }
{}

/// What the program prints to standard error.
pub fn messages()
    ensures usage { exit_text Usage ≡ codes "usage: ecow-run [--counted] FILE\n" }
    ensures done { exit_text (After program.Done) ≡ [] }
    ensures not_utf8 { exit_text (After program.NotUtf8) ≡ codes "ecow-run: not UTF-8\n" }
    ensures file { exit_text (After program.File) ≡ codes "ecow-run: file\n" }
    ensures too_large { exit_text (After program.TooLarge) ≡ codes "ecow-run: too large\n" }
    ensures memory { exit_text (After program.Memory) ≡ codes "ecow-run: memory\n" }
    ensures output { exit_text (After program.Output) ≡ codes "ecow-run: output\n" }
{}

/// What the program prints if a line is wrong.
pub fn unreadable_lines()
    ensures kind { unreadable_text 1 reason.Kind ≡ codes "ecow-run: line 1: kind\n" }
    ensures command { unreadable_text 2 reason.Command ≡ codes "ecow-run: line 2: command\n" }
    ensures name { unreadable_text 30 reason.Name ≡ codes "ecow-run: line 30: name\n" }
    ensures number { unreadable_text 9 reason.Number ≡ codes "ecow-run: line 9: number\n" }
    ensures list { unreadable_text 10 reason.List ≡ codes "ecow-run: line 10: list\n" }
    ensures marks { unreadable_text 100 reason.Marks ≡ codes "ecow-run: line 100: marks\n" }
    ensures bounds { unreadable_text 1024 reason.Bounds ≡ codes "ecow-run: line 1024: bounds\n" }
    ensures text { unreadable_text 1025 reason.Text ≡ codes "ecow-run: line 1025: text\n" }
    ensures arguments { unreadable_text 3001 reason.Arguments
        ≡ codes "ecow-run: line 3001: arguments\n" }
{}
