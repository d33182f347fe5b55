//! What the help of each command says behind its options: an example, and what it shows.

pub(crate) const PROGRAM: &str = "Examples:
  abt rate 53e8
  abt cell 0010064c02045258000000000000000000000001\
6a6a6a6a6a6a6a6a6a6a6a6a6a6a6a6a6a6a6a6a6a6a6a6a6a6a6a6a6a6a038c
  abt port 512000 0010064c02045258000000000000000000000001\
6a6a6a6a6a6a6a6a6a6a6a6a6a6a6a6a6a6a6a6a6a6a6a6a6a6a6a6a6a6a038c
  abt run scenarios/one_source.toml
  abt threads scenarios/threads_crossing.toml --workers 4
What each prints is shown by its own help, as abt help port.
Status 0: done. 1: a fault, which standard error names. 2: the words are refused.
141: whoever read the output went away.";

pub(crate) const RATE: &str = "Example:
  abt rate 53e8
  53e8 units 512000 spacing 1000000000
A unit is 1/512 cell per second. The spacing of cells is in picoseconds.";

pub(crate) const CELL: &str = "Example:
  abt cell 0010064c02045258000000000000000000000001\
6a6a6a6a6a6a6a6a6a6a6a6a6a6a6a6a6a6a6a6a6a6a6a6a6a6a6a6a6a6a038c
  request vpi 1 vci 100 seq 1 floor 0000 ask 5258
With --stdin each answer begins with the line's number. A line that is no such cell is answered with its fault,
as 2 fault Crc, and the status is 0.";

pub(crate) const PORT: &str = "Example:
  abt port 512000 0010064c02045258000000000000000000000001\
6a6a6a6a6a6a6a6a6a6a6a6a6a6a6a6a6a6a6a6a6a6a6a6a6a6a6a6a6a6a038c
  1 pass 0010064c02045258000000000000000000000001\
6a6a6a6a6a6a6a6a6a6a6a6a6a6a6a6a6a6a6a6a6a6a6a6a6a6a6a6a6a6a038c
  total 307200
A cell that can't be served has a line with its fault, and the status is 0.
With --stdin the total is told behind the last line.";

pub(crate) const RUN: &str = "Example:
  printf 'ports = [512000]\\nevents = [\"start 0 0\"]\\n' | abt run
  events 1
  1 not-enabled Unknown
  port 0 total 0 capacity 512000
  safe
How scenarios and reports are written stands in docs/FORMATS.md, and scenarios/ has examples.";

pub(crate) const THREADS: &str = "Example:
  printf 'ports = [512000]\\n' | abt threads --workers 4
  gathered
  woven
  safe
gathered: all threads have ended, and their journals fit together.
woven: one list of events is just these journals.
safe: no event of that list broke a promise. Each line goes out as soon as it is so.
What journals are stands in docs/THREADS.md, and how scripts are written in docs/FORMATS.md.
Status 0: done. 1: a fault, which standard error names. 2: the words are refused.
141: whoever read the output went away.";

pub(crate) const EXPLAIN: &str = "Example:
  printf 'ports = [512000]\\nevents = [\"start 0 0\"]\\n' | abt explain
  1 line 2 start 0 0: not-enabled Unknown: the net has 0 connections
  port 0: 0 of 512000 units, 0 of 1000 cells/s
  safe
What the reasons say stands in docs/EXPLAIN.md.";

pub(crate) const CHECK: &str = "Example:
  printf 'ports = [512000]\\nevents = [\"akk 0 5120\"]\\n' | abt check
  line 2, column 11: fault EventText 1: no event begins with `akk`; did you mean `ask`?
  faults: 1, warnings: 0
With several files, or with --located, each line begins as editors read it: a.toml:2:11: fault: EventText 1: ..
With --expect it is told in TAP whether each file's events have the outcomes that its array expect has.
The status is 0 if no fault is told, also if there are warnings, and else 1; with --expect, 0 if no test is not ok.";

pub(crate) const AUDIT: &str = "Example:
  abt audit run.jsonl
  woven
  safe
woven: one list of events is just these journals. safe: no event of that list broke a promise.
A fault names the file and the line; of entries that fit in no order, or that can't have been answered as they say,
each is told with its file and its line.
With --port or --source one log is judged alone, taking what comes in as sent, and answered as
  port 0 obeys: entries 3
With --json each of these is one object on the standard output, a note and a fault of a text too.
How journals are written stands in docs/JOURNALS.md.";

pub(crate) const POLICE: &str = "Example:
  printf '0\\n800000000\\n' | abt police --tau 200000000 --rate 53e8
  1 at 0 Conforming early 0 tat absent then 1000000000
  2 at 800000000 Conforming early 200000000 tat 1000000000 then 2000000000
Each line of the input is the moment at which a cell arrives, and is answered before the next one is read:
its number, the moment, the verdict, how much earlier than due the cell came, and the theoretical arrival
time before and after it. Moments are picoseconds.
A line that can't be served is answered with its fault, and the status is 0.";

pub(crate) const SHAPE: &str = "Example:
  printf '0\\n5\\n' | abt shape --rate 53e8
  1 ready 0 leaves 0 next 1000000000
  2 ready 5 leaves 1000000000 next 2000000000
Each line of the input is the moment at which a cell is ready, and is answered before the next one is read:
its number, the moment, when the cell leaves, and from when on the next one may. Moments are picoseconds.
A line that can't be served is answered with its fault, and the status is 0.";

pub(crate) const STEP: &str = "Example:
  printf 'start 0 0\\nask 0 5120\\nrequest 0 1 1\\n' | abt step scenarios/threads_one_source.toml
  1 started
  2 asked 1 0000 5120
  3 passed
  safe
Each line of the input is an event, and is answered before the next one is read: by its number and its outcome,
as abt run tells them of a scenario with these events. The line reset begins anew, and one that begins with # is
a comment, without an answer. A line that says no event is answered with its fault, and the status is 0.
How events are written stands in docs/FORMATS.md.";

pub(crate) const PLAY: &str = "Example:
  abt play scenarios/threads_one_source.toml --seed 1
  events: 10, granted: 1, refused: 0
  1 start 0 0: started
  2 ask 0 5120: asked 1 0000 5120: asks for 400 cells/s, keeps 0
  ..
  10 arrive 0 1 1002500001200: arrived Conforming
  connection 0 (1/100): its source shapes at 400 cells/s, port 0 holds 400
  port 0: 204800 of 512000 units, 400 of 1000 cells/s
  safe
  event 6: connection 0 is granted 400 cells/s by request 1
With --draw OUT the events are drawn besides, at most 2,000 of them: --from and --to name which.
How a play is drawn stands in docs/SCENARIOS.md.";

pub(crate) const CODE: &str = "Example:
  abt code 1.3Mbps
  below 56fe units 1568768 spacing 326370758
  above 56ff units 1570816 spacing 325945242
below has the greatest rate of a code that isn't above the one asked for, above the least that isn't below it.
cps are cells per second, bps bits per second on the line, where a cell has 53 octets. A unit is 1/512 cell per
second. The spacing of cells is in picoseconds.";

pub(crate) const WRITE: &str = "Example:
  abt write request 1 100 1 0000 5258
  0010064c02045258000000000000000000000001\
6a6a6a6a6a6a6a6a6a6a6a6a6a6a6a6a6a6a6a6a6a6a6a6a6a6a6a6a6a6a038c
The cell has 52 octets, without its HEC, and abt cell reads it back. What each word can be stands in docs/FORMATS.md.";

pub(crate) const DRAW: &str = "Example:
  abt draw scenarios/two_ports.toml -o two_ports.html
  abt draw scenarios/threads_crossing.toml --workers 4 -o crossing.html
What stands in the picture is told in docs/PICTURES.md. At most 2000 events are drawn at once.";

pub(crate) const SWITCH: &str = "Example:
  printf '0 0010064c02045258000000000000000000000001\
6a6a6a6a6a6a6a6a6a6a6a6a6a6a6a6a6a6a6a6a6a6a6a6a6a6a6a6a6a6a038c\\n' |
    abt switch scenarios/one_source.toml --port 0 --journal port0.jsonl
  send 0 0010064c028c5258000000000000000000000001\
6a6a6a6a6a6a6a6a6a6a6a6a6a6a6a6a6a6a6a6a6a6a6a6a6a6a6a6a6a6a0165
Each line of the input is a request or an answer that comes to a port, a data cell, or a capacity, and is answered
before the next one is read. What a port did is in the journal before its answer goes out.
Lines, answers, journals and faults stand in docs/LIVE.md. The status is 0 once the input ends.";

pub(crate) const SOURCE: &str = "Example:
  printf 'start 0\\nask 5258\\n' |
    abt source scenarios/one_source.toml 0 --store store0 --journal source0.jsonl --new
  started
  rm 0010064c02045258000000000000000000000001\
6a6a6a6a6a6a6a6a6a6a6a6a6a6a6a6a6a6a6a6a6a6a6a6a6a6a6a6a6a6a038c
Each line of the input is a command, or an answer that the source hears, and is answered before the next one is
read. What the source did is in the journal before its answer goes out, and no number is used twice, whatever ends
the process. Without --new it goes on over its store and its journal.
Lines, answers, journals and faults stand in docs/LIVE.md. The status is 0 once the input ends.";
