//! The help texts.

pub(crate) const ABOUT: &str =
    "A dynamic supervisor (simple_one_for_one, by the rules of Erlang/OTP 26) at the command line";

pub(crate) const VERSION: &str = "0.2.0";

// What each option and file is.
pub(crate) const TEXT_FILE: &str = "The text; standard input, if it is `-` or left out";

pub(crate) const JOURNAL_FILE: &str = "The journal; standard input, if it is `-`";

pub(crate) const FOLLOW: &str = "Shows each line with its reply, and then what comes to the file";

pub(crate) const WORKERS: &str = "Threads that run bodies: 1 to 64";

pub(crate) const CHILDREN: &str = "Children to start: 1 to 65536";

pub(crate) const READERS: &str = "Threads that ask: 0 to 64";

pub(crate) const TURNS: &str = "Questions of each thread: 1 to 1000000";

pub(crate) const NEW_FILE: &str = "A new file to which the history is written";

pub(crate) const KEPT_FILE: &str = "A file in which the sessions outlive the server";

pub(crate) const SAYS_COUNT: &str =
    "Says after an answer how many sessions there are, if that has changed";

pub(crate) const ANEW: &str =
    "Begins a new history in FILE, and keeps the old one as FILE.1, FILE.2 and so on";

pub(crate) const SCRIPT: &str =
    "Reads a script, in a file or on standard input, and writes its replies on standard output";

pub(crate) const SCRIPT_HELP: &str =
    "Reads a script, in a file or on standard input, and writes its replies on standard output.

The first line is the header: `sup`, a restart type (permanent, transient, temporary), a kind (worker,
supervisor), the intensity (0 to 1000), the period in seconds (1 to 86400), the most rows (1 to 65536), and
then, if wanted, a mark (plain, significant) and an automatic shutdown (never, any, all).

Each further line is a command:
  start MOMENT TEXT            starts a child with this argument
  exit MOMENT NUMBER REASON    says that a child ended (normal, shutdown, shutdown:TEXT, or another text)
  retry MOMENT NUMBER          tries a failed restart again
  terminate MOMENT NUMBER      ends a child
  stop MOMENT                  ends all children and the supervisor
  which, count                 lists the children, counts them
  terminate_id TEXT, delete_child TEXT, restart_child TEXT

A moment is a whole number of seconds. An argument `ignore` is answered by no child, `fail` by a failure, and
`gap:A:B` by a failure from moment A on until moment B, B excluded.

One space stands between two words of a line, and none at its beginning or end. A text has 1 to 40 visible
characters of ASCII, so it has no space. A number has digits alone, no sign and no leading zero, and is at most
18446744073709551615. A line ends with a line feed, which the last line may lack.

Example:
  supload script <<END
  sup permanent worker 1 5 10
  start 0 session-17
  exit 1 1 crash
  which
  exit 2 2 crash
  END
writes
  ok 1
  restarted 1 2
  child 2 running session-17
  end 1
  gave_up";

pub(crate) const REPLAY: &str =
    "Reads a history text, in a file or on standard input, and writes the reply of each entry on standard output";

pub(crate) const REPLAY_HELP: &str =
    "Reads a history text, in a file or on standard input, and writes the reply of each entry, one a line, on standard
output.

The first line is `history 2`, a restart type (permanent, transient, temporary), a kind (worker, supervisor), the
intensity (0 to 1000), the period in seconds (1 to 86400), the most rows (1 to 65536), a mark (plain, significant)
and an automatic shutdown (never, any, all); or `history 1` with all but the last two.

Each further line is an entry: HANDLE SERIAL MOMENT OPERATION ANSWER. The operation is `start TEXT`,
`exit NUMBER REASON`, `retry NUMBER`, `terminate NUMBER` or `stop`; the answer is what the start function answered:
`running`, `ignore` or `failed CODE`. Nothing is written before all was read.

Spaces, texts and numbers are as in a script (`supload script --help`); a code is at most 4294967295. Every line ends with
a line feed, the last one too. A journal whose last line is torn, and one of any length, is answered by `supload journal`.

Example:
  supload replay <<END
  history 2 permanent worker 1 5 10 plain never
  1 0 0 start session-17 running
  1 1 1 exit 1 crash failed 3
  1 2 2 retry 1 running
  1 3 3 stop ignore
  END
writes
  ok 1
  restarting 1 3
  gave_up
  error down";

pub(crate) const JOURNAL: &str =
    "Answers a journal of any length while it reads it, and says what the supervisor holds in the end";

pub(crate) const JOURNAL_HELP: &str =
    "Answers a journal of any length while it reads it, and says what the supervisor holds in the end.

A journal is a history text (`supload replay --help` says what its lines are) that a program wrote as its history grew, and
that may have broken off in its last line. Writes the reply of each entry, one a line, on standard output, in memory for the
rows alone. The last line is `entries E torn B` and the reply to `count`: how many entries there were, how many bytes of a
torn last line were left out, and which children there are; or `error down`.

With --follow each whole line is written with its reply, `1 4 52 exit 3 crash running -> restarted 3 9`, and then each that comes
to FILE within a tenth of a second, also if a new history begins in FILE. It ends with a fault, or if it is ended.

Example:
  supload journal sessions.txt
writes
  ok 1
  restarted 1 2
  entries 2 torn 0 count specs 1 active 1 supervisors 0 workers 1";

pub(crate) const LOAD: &str = "Runs a crew beside readers, and writes what it came to";

pub(crate) const LOAD_HELP: &str =
    "Starts N children, which finish at once in W threads, while R threads ask T times each how many there are.

Writes two lines. The first is `made A exits B strays C restarts D gave_up E left F held G`: the numbers of children that
were made, of exits that were entered, and of those answered stray, restarted and gave_up; of children that were not run;
and of exits that were taken and not entered. The second is `reads Q`, the number of questions that were answered.

If standard error is a terminal, a line there says once a second how many children were made and how many have ended.

With --journal the history is written to FILE, which must not be there yet, as a text that `supload journal` reads: each
update before it takes effect.

Examples:
  supload load --workers 4 --children 100 --readers 2 --turns 50 --journal load.txt
writes
  made 100 exits 100 strays 0 restarts 0 gave_up 0 left 0 held 0
  reads 100";

pub(crate) const SERVE: &str =
    "Serves sessions: reads a command a line on standard input, and answers each at once";

pub(crate) const SERVE_HELP: &str =
    "Serves sessions: reads a command a line on standard input, and answers each at once on standard output.

Each session is a child of a supervisor. One that crashed runs again under a new number, with nothing counted, at most
5 times within 10 seconds; then all sessions end, and the supervisor is down. There are at most 65536 at a time.

  open NAME          `opened N`: a session of this name runs under the number N
  tell N TEXT        `session N messages M`: session N answers how many texts it was sent
  crash N            `crashing N`: session N crashes as soon as it reads that
  close N            `closing N`: session N is asked to end
  who                `session N NAME` for each that is listed, and `end K` with how many
  count              `sessions K`
  quit               ends the server, as the end of the input does

A name and a text have 1 to 40 visible characters of ASCII. An answer may be `error no session N`, `error full`,
`error down` or another `error`; a line that is no command is answered by what was expected. Before an answer a line
`restarted N M NAME` says that session N crashed and runs as session M. When the input has ended, the last line says how
many sessions were opened, restarted, ended and kept, and whether every session is accounted for.

With --journal the sessions are kept in FILE, which is made if there is none: started again with it, the server says how
many sessions it found, and they run again under their numbers, with nothing counted. A file is for one server at a time.
A supervisor that is down stays down in FILE: the next server ends at once, with fault 17 and status 5. With --anew it
begins a new history in FILE, and says where the old one is: FILE.1, FILE.2 or so on, the first name that is free.

Example:
  supload serve <<END
  open ann
  tell 1 hello
  close 1
  END
writes
  opened 1
  session 1 messages 1
  closing 1
  opened 1 restarted 0 ended 1 kept 0: every session is accounted for";

pub(crate) const SERVE_FAULTS: &str =
    "A fault is the line `fault N` on standard error, with its number, and a line under it that says what is wrong:
   1  out of memory, or a thread was refused
   5  all handles were made
   6  there is no place for a reader
   7  the journal is of no server of sessions
   9  a line of the journal is wrong
  10  standard input could not be read
  11  standard output could not be written
  13  the journal could not be written
  14  the journal's file could not be made, read, cut or kept, or another program has it
  17  the supervisor of the journal is down

Exit status: 0 when the input has ended or asked to quit, 2 if the words are wrong, 3 after fault 10 or 11, 5 after fault 17,
which no further start cures, and 4 after any other.";

pub(crate) const STATUSES: &str = "Exit status:
  0  all was answered
  2  the words or a line are wrong, or the input is too long
  3  reading or writing failed
  4  any other fault, such as no memory
  5  the history of a server has ended
A fault is a line on standard error that begins with `fault N`, with its number; of the input it is `fault N line L`.

`./supload prove` proves and builds the program for script, replay and journal, and `./supload prove all` that for all
commands. Until then ./supload answers by a build that is checked while it runs and not proved.";

pub(crate) const FAULTS: &str =
    "A fault is one line on standard error: `fault N line L`, with its number and the line's; of a file that can't be read,
`fault 10: CAUSE: FILE`:
   1  out of memory
   7  a number of the first line is out of its range, or `significant` is not allowed there
   9  invalid line
  10  the file or standard input could not be read
  11  standard output could not be written
  12  more than 16777216 bytes came, which only a journal may have
With --explain further lines show the line, what is wrong with it and what was expected; on a terminal also without it.

Exit status: 0 if all was answered, 2 after fault 7, 9 or 12 or if the words are wrong, 3 after fault 10 or 11, 4 after fault 1.";

pub(crate) const LOAD_FAULTS: &str =
    "A fault is the line `fault N` on standard error, with its number:
   1  out of memory, or a thread was refused
   2  the history is full
   4  a reader was refused
   5  all handles were made
   6  there is no place for a reader
  11  standard output could not be written
  13  the journal could not be written
  14  the journal's file is there already, or could not be made
With --explain or --journal further lines say what is wrong and, if the load broke off, how many children were not started
and how many exits were not taken; on a terminal also without these.

Exit status: 0 if the load was run, 2 if the words are wrong, 3 after fault 11, and 4 after any other.";
