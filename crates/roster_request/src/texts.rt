//! The help texts of the program and of its commands.

pub(crate) const ABOUT: &str =
    "Reads the texts of a nurse rostering instance and writes its rosters, what they cost, how \
    much a search takes, the rosters with a nurse's best row, better rosters or new ones, a lower \
    bound on every roster's cost, or who may take a shift.";

pub(crate) const TEXTS: &str =
    "The texts of the instance: the scenario, the history, and then the weeks and the rosters, in \
    one file or in several";

pub(crate) const SHOW: &str = "Write the rosters as they are, in one tidy form";

pub(crate) const SHOW_HELP: &str = "Examples:
  roster show examples/mini.txt
  roster show scenario.txt history.txt week-0.txt roster-0.txt

The files are read one after another, in the order given. Without a file, the
texts are read from standard input.";

pub(crate) const COST: &str = "Write what the roster costs, rule by rule";

pub(crate) const COST_HELP: &str =
    "The hard rules are checked first. If the roster breaks one, its cost isn't
written: the first breach goes to standard error, and the status is 1. The hard
rules are: enough nurses for each shift and skill; no forbidden succession of
shifts; no skill that a nurse lacks; no work of an absent nurse.

A line is written for each soft rule, and a last one for their total:
  S1  30 for each nurse lacking to the optimum cover of a day, shift and skill
  S2  15 for each missing or extra day of a run of one shift, 30 of a working run
  S3  30 for each missing or extra day of a run of days off
  S4  10 for each assignment to a shift that the nurse asked not to work
  S5  30 for each half worked weekend, if the contract wants whole weekends
  S6  20 for each assignment below the least or above the greatest total
  S7  30 for each worked weekend above the greatest number
  S8  10 for each day of a nurse with a wish to work that isn't met

With --json each line is an object. One is written for each breach of the hard
rules, with its rule and day, and with its nurse or its shift and skill; the
last has the costs, also of a roster that breaks a rule, and says by 'allowed'
whether it keeps them all. Then the status is 0.

Examples:
  roster cost examples/mini.txt
  roster cost --json examples/mini.txt

The files are read one after another, in the order given. Without a file, the
texts are read from standard input.";

pub(crate) const JSON_LINES: &str = "Write the report as JSON, one object a line";

pub(crate) const SIZES: &str = "Write how much the search for each nurse takes";

pub(crate) const SIZES_HELP: &str =
    "What the search for a nurse's best row takes, known before it begins. A line is
written for each nurse, in the order of the scenario: the name and four numbers,
as in 'Ann 1296 2592 9072 27216'. To the owner of a small machine they mean:
  1296   states that the search distinguishes. A state is what the days so far
         mean for the costs of the days to come.
  2592   labels of 4 bytes each, in two tables: one label for each state of the
         present day, and one for each state of the next
  9072   pointers, one for each state and day
  27216  extensions that the search makes at most: one from each state, on each
         day, by each choice of the nurse

The search takes one nurse at a time, in the same memory. So it needs what the
line with the greatest numbers says, and some 120 kB more that serve any nurse.
The machine must also have memory for the program, for what it has read, and for
what a run keeps for each nurse.

The hard rules aren't checked.

With --json each line is an object, with the nurse's number and name and the
four numbers as 'states', 'labels', 'pointers' and 'extensions'.

Examples:
  roster sizes examples/mini.txt
  roster sizes --json examples/mini.txt

The files are read one after another, in the order given. Without a file, the
texts are read from standard input.";

pub(crate) const NURSE_NAME: &str = "The nurse's name in the scenario, letter for letter";

pub(crate) const FIRST_WEEK: &str =
    "The first week that may change, 0 to 52: the weeks before it stay as they are";

pub(crate) const KEPT_POINTS: &str =
    "Each day of a nurse that changes from the given roster costs N points more, 0 to 100";

pub(crate) const BEST: &str = "Put a nurse's best row into the rosters, and write them";

pub(crate) const BEST_HELP: &str =
    "The best row of a nurse is the first of the cheapest among all rows of this
nurse that keep the hard rules while the rows of the others stay as they are. Of
two that cost the same, the first is the one with the earlier choice on the
first day on which they differ: off, then by shift and skill in the order of the
scenario. The row is put in even if the roster costs no less with it.

The hard rules are checked first, as for 'roster cost'. Two lines go to standard
error: what the roster costs before, and what it costs with the row:
  start 470
  best Ann 180

With --from V, weeks 0 to V - 1 are frozen: the nurse's days in them stay as
they are, and so do those of the section FIXED; the row is the best of those
that keep them. All weeks are read and count towards the cost. If V is above the
last week, nothing changes.

With --keep N, each day of a nurse that changes from the given roster (to
another shift, to off, or from off; another skill is free) costs N points more,
so that the roster stays much as it is. Then the log begins with a line
'keep N', and its numbers include these points.

With --out FILE, the rosters go to FILE, and standard output stays empty. They
are written to a temporary file next to it, which is flushed to the disk and
renamed onto FILE once it is whole, so that FILE has all of them, or what it had
before. A FILE that is one of the inputs is refused, and so is one in a folder
that can't be written.

What isn't promised: that this is the best roster, since the others' rows stay;
that it is best for two nurses at once; how long the search takes. For its
memory and its greatest number of extensions, see 'roster sizes'.

Examples:
  roster best --nurse Ann examples/mini.txt > better.txt
  roster best --nurse Ines --from 2 examples/ward.txt > better.txt

The files are read one after another, in the order given. Without a file, the
texts are read from standard input.";

pub(crate) const ROUND_COUNT: &str = "The run makes at most N rounds, 0 to 1000";

pub(crate) const IMPROVE: &str = "Make the rosters cheaper, nurse by nurse, and write them";

pub(crate) const IMPROVE_HELP: &str =
    "A step takes one nurse and puts in this nurse's best row if that makes the
roster cheaper; otherwise it changes nothing. 'roster best --help' says what the
best row is. A round is one step for each nurse, in the order of the scenario. A
run makes rounds until one changes nothing, or until it has made as many as
--rounds allows.

The hard rules are checked first, as for 'roster cost', and the rosters written
keep them too. A log goes to standard error, each line as soon as it is known:
  start 470     what the roster costs before the run
  1 Ann 180     in round 1 Ann's row was replaced: the roster costs 180 now
  1 Bob 20
  round 1 20    what it costs at the end of the round
  2 Ann 0
  round 2 0
  round 3 0
  settled 0     how the run ended, and what the rosters written cost
The last line begins with one of two words:
  settled  the last round changed nothing: no nurse has a cheaper row while the
           rows of the others stay. More rounds would change nothing.
  stopped  all rounds were made, and the last one still changed something, or
           there was none to make. More rounds may make the rosters cheaper.

With --from V, weeks 0 to V - 1 are frozen, for instance because they are
published: each nurse's days in them stay as they are, and so do those of the
section FIXED. All weeks are read and count towards the cost. If V is above the
last week, nothing changes.

With --keep N, each day of a nurse that changes from the given roster (to
another shift, to off, or from off; another skill is free) costs N points more,
so that the roster stays much as it is. Then the log begins with a line
'keep N', and its numbers include these points.

With --out FILE, the rosters go to FILE, and standard output stays empty. They
are written to a temporary file next to it, which is flushed to the disk and
renamed onto FILE once it is whole, so that FILE has all of them, or what it had
before. A FILE that is one of the inputs is refused, and so is one in a folder
that can't be written.

What isn't promised: that these are the best rosters of all, settled or not,
since changing two rows at once may still save something; how long the run
takes. For its memory and the greatest number of extensions for a nurse, see
'roster sizes'.

Examples:
  roster improve examples/ward.txt > better.txt
  roster improve --rounds 5 examples/ward.txt > better.txt
  roster improve --from 2 examples/ward.txt > better.txt

The files are read one after another, in the order given. Without a file, the
texts are read from standard input.";

pub(crate) const BOUND: &str = "Write a lower bound on every roster's cost";

pub(crate) const BOUND_HELP: &str =
    "How good a roster can get. Two lines are written: what the roster costs, and a
lower bound, a number that no roster costs less than, however it is made:
  roster 3150
  bound 750
So at most the difference can still be saved. The bound holds for all rosters of
the instance that keep the hard rules. There may be none that costs so little.

The hard rules are checked first, as for 'roster cost'. A log goes to standard
error, each line as soon as it is known:
  start 3150     what the roster costs
  round 29 750   the bound that round 29 found. A round that finds no greater one
                 has no line.
A round takes each nurse once, as a round of 'roster improve' does. A longer run
begins with the rounds of a shorter one, so its bound is at least as great. If
the bound reaches what the roster costs, the run ends: none of these rosters is
cheaper. The rounds also end early if 30 in a row have each gained less than a
quarter of a point. With --rounds 0 the bound is 0, or what branchings find.

With --nodes N the run then grows a tree, with at most N branchings. Its first
node holds all rosters. A branching divides those of a node into two nodes:
those in which a nurse makes a certain choice on a day, and those in which she
doesn't. The bound is the least of the bounds of the leaves, and the leaf that
has it is divided next. The log numbers the branchings as further rounds, after
those that --rounds allows.

With --seconds S, the run ends after that time if nothing else has ended it
before, with the bound that it has found by then. The same words can then give
other bounds on another machine, or on the same one when it is busy; without
--seconds they give the same everywhere.

With --from V, weeks 0 to V - 1 are frozen: the bound holds for those rosters in
which each nurse's days in them, and those of the section FIXED, are as given.
If V is above the last week, that is the given roster alone.

With --keep N, each day of a nurse that changes from the given roster (to
another shift, to off, or from off; another skill is free) costs N points more,
and the bound is for what rosters cost with these points. Then the log begins
with a line 'keep N'.

What isn't promised: how near the bound is to the cheapest roster; how long the
run takes. For its memory and the greatest number of extensions for a nurse, see
'roster sizes'.

Examples:
  roster bound examples/ward.txt
  roster bound --rounds 300 examples/ward.txt
  roster bound --nodes 100 examples/ward.txt
  roster bound --seconds 10 examples/ward.txt
  roster bound --rounds 1 --from 2 examples/ward.txt

The files are read one after another, in the order given. Without a file, the
texts are read from standard input.";

pub(crate) const NODE_COUNT: &str =
    "After the rounds the run makes at most N branchings, 0 to 10000";

pub(crate) const SEARCH_COUNT: &str =
    "Apart from the first descent the run makes at most N searches, 0 to 10000000; if it is not \
     given, 400 for each nurse, and 20000 at least; with --seconds 10000000";

pub(crate) const SECOND_COUNT: &str =
    "The run ends after about S seconds at the latest, 1 to 86400; what it finds then depends on the \
     machine";

pub(crate) const SEED_NUMBER: &str = "The seed of the run's random numbers, 0 to 4294967295";

pub(crate) const KICKS_ALONE: &str = "Make only kicks, no fade, and search no neighbourhoods";

pub(crate) const POLISH: &str = "Make the rosters much cheaper, and write them";

pub(crate) const POLISH_HELP: &str =
    "A roster is settled if no nurse has a cheaper row while the others keep theirs.
'roster improve' ends there, if its rounds are enough. This command begins with
such a descent too: rounds until the roster is settled. Then it makes a fade,
and searches neighbourhoods as long as searches are left. With --kicks it makes
kicks in place of both.
  fade  Pass after pass, each nurse gets the best row by prices that go from the
        dual prices of 'roster bound' to what cover really costs. Most rows
        change.
  neighbourhood
        Some nurses are free, on all days or within a few weeks, and get the
        best rows together, if there are cheaper ones.
  kick  One to three nurses get the best rows by other prices, on the days of
        one to four weeks.
Each of these ends with another descent. If the roster settles, keeps the hard
rules and is no dearer than before, it stays; otherwise, and also if no search
is left, the one from before comes back.

The hard rules are checked first, as for 'roster cost', and the rosters written
keep them too. A log goes to standard error, each line as soon as it is known:
  start 3150     what the roster costs before the run
  fade 770       the fade stayed: the roster costs 770 now. A fade that doesn't
                 stay has no line.
  kick 85 765    try 85 after the fade made it cheaper: it costs 765 now. A try
                 is a neighbourhood, another fade, or a kick. One that doesn't
                 make it cheaper has no line.
  settled 765    what the rosters written cost. They are settled.
The last line begins with 'stopped' instead of 'settled' if the first descent
was not at its end after 1,000,000 rounds, and neither the fade nor what came
after it stayed.

A search is one for the best row of a nurse. The first descent makes as many as
it needs, in up to 1,000,000 rounds. After it the run makes at most as many as
--searches allows: up to a quarter of them to find dual prices; then for the
fade, up to 400 for each nurse, or fewer if there are more than 50 nurses, but
not below 140; and the others for neighbourhoods. Once these have brought
nothing for long, the roster is faded again, the neighbourhoods of that roster
are searched, and so on, and the cheapest roster stays. The last three tenths go
to neighbourhoods of that one. What is done there besides searches counts as
searches too, by the work that it takes. With --kicks it is up to a half to find
dual prices, and the others for kicks. With --searches 0 there is nothing of all
this. The same texts, --searches, --seed, --kicks and --from give the same
rosters. It pays to try several seeds. Without --out, a run that is ended by
Ctrl-C leaves no rosters, since they are written at its end.

With --seconds S, the run ends after that time if nothing else has ended it
before, as it does when no search is left. Without --searches it makes as many
searches as the time allows, 10000000 at most. The first descent isn't cut off
by the time: it takes a tenth of a second on a ward. The same words can then
give other rosters on another machine, or on the same one when it is busy;
without --seconds they give the same everywhere.

With --from V, weeks 0 to V - 1 are frozen: each nurse's days in them stay as
they are, and so do those of the section FIXED. All weeks are read and count
towards the cost. If V is above the last week, nothing changes.

With --keep N, each day of a nurse that changes from the given roster (to
another shift, to off, or from off; another skill is free) costs N points more,
so that the roster stays much as it is. Then the log begins with a line
'keep N', and its numbers include these points.

With --out FILE, the rosters go to FILE, and standard output stays empty. They
are written to a temporary file next to it, which is flushed to the disk and
renamed onto FILE once it is whole, so that FILE has all of them, or what it had
before. While the run goes on, FILE gets the rosters of the log's last line in
the same way, at most once a second, so that a run that is ended by Ctrl-C
leaves them. A FILE that is one of the inputs is refused, and so is one in a
folder that can't be written.

What isn't promised: how cheap the rosters get, for which see 'roster bound';
how long the run takes. For its memory and the greatest number of extensions for
a nurse, see 'roster sizes'.

Examples:
  roster polish examples/ward.txt > better.txt
  roster polish --searches 200000 --seed 7 examples/ward.txt > better.txt
  roster polish --seconds 20 examples/ward.txt > better.txt
  roster polish --from 2 examples/ward.txt > better.txt
  roster polish --kicks examples/ward.txt > better.txt

The files are read one after another, in the order given. Without a file, the
texts are read from standard input.";

pub(crate) const PLAN: &str = "Look for rosters that keep the hard rules, and write them";

pub(crate) const PLAN_HELP: &str =
    "Looks for a roster that keeps the hard rules, from whatever solutions are given.
They may be empty, fall short of minimums, have forbidden successions, or let a
nurse work on a day of absence: perhaps weeks aren't planned yet, or a nurse has
fallen ill. As always, a second shift on a day and a skill that the nurse lacks
are refused.

There has to be a solution for each week. If the texts are refused with
'expected SOLUTION' because there is no roster yet, give one more file with
empty ones, each with its week and the scenario's name:
  SOLUTION 0 ward12 ASSIGNMENTS = 0
  SOLUTION 1 ward12 ASSIGNMENTS = 0

If the given roster breaks a hard rule, the run gives all nurses new rows on the
days that may change, whatever is given there: fade after fade, until every
minimum is met or no search is left. Then it settles the roster and polishes it
as 'roster polish' does, with the searches that are left. The rosters written
keep all hard rules.

A log goes to standard error, once such a roster is found:
  start 61     how many nurses the given roster lacks to the minimums, without
               counting absent ones
  fade 770     from this line on as for 'roster polish'
  kick 85 765
  settled 765  what the rosters written cost
If none is found within the searches, no roster is written, and the status is 1.
Of the given roster and those with which the fades ended, the nearest is the one
that lacks the fewest nurses; one line says which hard rule it breaks first:
  not found: H2 week 1 Tue Early Nurse: 0 of 1
That doesn't mean that there is none. More searches or another seed may find
one.

A search is one for the best row of a nurse. To find the roster, and then for
the fade and the neighbourhoods, the run makes at most as many as --searches
allows. The first descent makes as many as it needs, in up to 1,000,000 rounds.
The same texts, --searches, --seed and --from give the same rosters. It pays to
try several seeds. Without --out, a run that is ended by Ctrl-C leaves no
rosters, since they are written at its end.

With --seconds S, the run ends after that time if nothing else has ended it
before. If no roster that keeps the hard rules is found by then, it answers
'not found', as it does when no search is left. Without --searches it makes as
many searches as the time allows, 10000000 at most. The first descent isn't cut
off by the time: it takes a tenth of a second on a ward. The same words can then
give other rosters on another machine, or on the same one when it is busy;
without --seconds they give the same everywhere.

With --from V, weeks 0 to V - 1 are frozen: each nurse's days in them stay as
they are, and so do those of the section FIXED. All weeks are read and count
towards the cost. If V is above the last week, nothing changes. If the days that
stay break a hard rule by themselves, one line says so, and no roster is looked
for.

With --keep N, each day of a nurse that changes from the given roster (to
another shift, to off, or from off; another skill is free) costs N points more,
so that the roster stays much as it is. Then the log begins with a line
'keep N', and its numbers include these points.

With --out FILE, the rosters go to FILE, and standard output stays empty. They
are written to a temporary file next to it, which is flushed to the disk and
renamed onto FILE once it is whole, so that FILE has all of them, or what it had
before. While the run goes on, FILE gets the rosters of the log's last line in
the same way, at most once a second, so that a run that is ended by Ctrl-C
leaves them. A FILE that is one of the inputs is refused, and so is one in a
folder that can't be written.

What isn't promised: that a roster is found if there is one; how cheap the
rosters get, for which see 'roster bound'; how long the run takes. For its
memory and the greatest number of extensions for a nurse, see 'roster sizes'.

Examples:
  roster plan examples/ward.txt > new.txt
  roster plan scenario.txt history.txt week-0.txt empty.txt > new.txt
  roster plan --searches 200000 --seed 7 examples/ward.txt > new.txt
  roster plan --seconds 20 examples/ward.txt > new.txt
  roster plan --from 2 examples/ward.txt > new.txt
  roster plan --keep 50 examples/ward.txt > new.txt

The files are read one after another, in the order given. Without a file, the
texts are read from standard input.";

pub(crate) const WEEK_AND_DAY: &str =
    "The day of the shift: the number of its week, from 0, and Mon to Sun, as in 1:Wed";

pub(crate) const SHIFT_NAME: &str = "The shift's name in the scenario, letter for letter";

pub(crate) const OUT_FILE: &str =
    "Write the rosters to FILE, whole or not at all; standard output then stays empty";

pub(crate) const SKILL_NAME: &str =
    "The skill's name in the scenario; if it is not given, any that the nurse has";

pub(crate) const WHO: &str = "Write who may take a shift, and what the roster costs then";

pub(crate) const WHO_HELP: &str =
    "A line is written for each nurse who may take the shift on that day, while the
rows of the others stay as they are:
  Ann 1250 changed 2
says that the roster costs 1250 with the best row of Ann's that has the shift,
and that this row has another choice than her present one on 2 days. She may
take the shift if she has such a row: one with no skill that she lacks, no
forbidden succession and no work in an absence, and with which every minimum
that was met is met still. The best is the first of the cheapest, as for 'roster
best'.

The roster may fall short of minimums. What absent nurses work in it doesn't
count. If it falls short, each nurse lacking counts 1000000 in the choice of the
row, so that the row fills other gaps if it can, and each line says how many are
lacking with it:
  Ann 1250 changed 2 missed 0
A nurse who is needed where she works isn't listed: her shift would fall short
then. The first lines are those with the fewest lacking, of these the cheapest
first, and of equally cheap ones in the order of the scenario. If nobody may
take the shift, nothing is written.

As always, a second shift on a day and a skill that the nurse lacks are refused.

With --json each line is an object, with the nurse's number and name and the
numbers as 'penalty', 'changed' and 'missed', which is there in any case.

With --from V, weeks 0 to V - 1 are frozen: the nurses' days in them stay as
they are, and so do those of the section FIXED; if they break a hard rule, one
line says so. All weeks are read and count towards the cost. If V is above the
last week, nothing changes.

What isn't promised: that no better roster has the shift, since the others' rows
stay; how long it takes. For its memory and the greatest number of extensions
for a nurse, see 'roster sizes'.

Examples:
  roster who --day 1:Wed --shift Early examples/ward.txt
  roster who --day 2:Sat --shift Late --skill HeadNurse --from 2 examples/ward.txt

The files are read one after another, in the order given. Without a file, the
texts are read from standard input.";

pub(crate) const EXAMPLES: &str = "Examples:
  roster show examples/mini.txt
  roster cost examples/mini.txt
  roster sizes examples/mini.txt
  roster best --nurse Ann examples/mini.txt
  roster improve examples/ward.txt
  roster bound examples/ward.txt
  roster polish examples/ward.txt > better.txt
  roster plan examples/ward.txt > new.txt
  roster who --day 1:Wed --shift Early examples/ward.txt

'roster COMMAND --help' says more about a command.";
