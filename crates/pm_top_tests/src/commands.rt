//! What the commands say of files, and of words that are no command line.
use crate::play::play;
use crate::runs::words_of;
use pm_top::{WordsNo, misfit, read_words};
use std::test::Fail;

/// Commands over files, where nothing fails.
const SCENES: &str = r"
# a cluster is made once
files ..0 | ..0
$ initdb --data folder
ends Done 0
says initialized\n
a NEW
b CLOSED
$ initdb --data folder
ends Exists 1
says a\x20cluster\x20exists\n
a NEW
b CLOSED
# words that are no command line
$
ends Usage 2
says USAGE
$ serve
ends Usage 2
says USAGE
$ serve --data x
ends Usage 2
says USAGE
$ serve --data x --port 0
ends Usage 2
says USAGE
$ serve --data x --port 65536
ends Usage 2
says USAGE
$ once --data x --port 5432
ends Usage 2
says USAGE
$ once --data
ends Usage 2
says USAGE
$ controldata folder
ends Usage 2
says USAGE
$ initdb --data x --data y
ends Usage 2
says USAGE
$ workload --data x
ends Usage 2
says USAGE
$ once --data x --max-connections 201
ends Usage 2
says USAGE
$ once --data x --max-connections 0
ends Usage 2
says USAGE
$ once --data x --superuser-reserved 20
ends Usage 2
says USAGE
$ once --data x --superuser-reserved -1
ends Usage 2
says USAGE
$ once --data x --superuser-reserved=
ends Usage 2
says USAGE
$ once --data x --superuser-reserved 1 --superuser-reserved 1
ends Usage 2
says USAGE
$ serve --data x --port 5432 --max-connections 1 --superuser-reserved 1
ends Usage 2
says USAGE
$ serve --data x --port 5432 --superuser-reserved 1 --max-connections 1
ends Usage 2
says USAGE
$ initdb --data x --superuser-reserved 0
ends Usage 2
says USAGE
$ once --data x --restart-after-crash no
ends Usage 2
says USAGE
$ initdb --data x --restart-after-crash off
ends Usage 2
says USAGE
# workloads: none touches the files that it is handed
files NEW | CLOSED
$ workload --number 5
ends Done 0
says queries\x205\ncommits\x204\nrows\x204\nkey\x20sum\x201000\nlast\x20key\x20524\n
a NEW
b CLOSED
$ workload --number=0
ends Done 0
says queries\x200\ncommits\x200\nrows\x200\nkey\x20sum\x200\nlast\x20key\x20none\n
$ workload --number 10
ends Done 0
says queries\x2010\ncommits\x208\nrows\x208\nkey\x20sum\x208340\nlast\x20key\x202574\n
$ workload --number 100000
ends Done 0
says queries\x20100000\ncommits\x2080000\nrows\x201044\nkey\x20sum\x202608156\nlast\x20key\x204998\n
fail line 1
$ workload --number 5
ends OutFault 1
says
fail line 2
$ workload --number 5
ends OutFault 1
says queri
# a server without a thread for its first worker
files NEW | CLOSED
threads 0
$ serve --data folder --port 5432 < PACKET
ends NoThread 4
says no\x20thread\n
links 0
a NEW
b CLOSED
# what the files stand for: behind `initdb`, a kill, a checkpoint, and a kill before the old file was closed
files NEW | CLOSED
$ controldata --data=folder
ends Done 0
says OF_NEW
book
a NEW
b CLOSED
files ONE_ROW | CLOSED
$ controldata --data=folder
ends Done 0
says OF_ONE_ROW
book
a ONE_ROW
b CLOSED
files ONE_ROW_CLOSED | BASE_OF_ONE
$ controldata --data=folder
ends Done 0
says OF_CHECKPOINT
book
a ONE_ROW_CLOSED
b BASE_OF_ONE
files ONE_ROW | BASE_OF_ONE
$ controldata --data=folder
ends Done 0
says OF_CHECKPOINT
book
a ONE_ROW
b BASE_OF_ONE
# a cluster that was served
files ..0 | ..0
$ initdb --data folder
$ once --data=folder < PACKET INSERT_SEVEN SELECT_SEVEN TERMINATE
$ controldata --data=folder
ends Done 0
says OF_CHECKPOINT
book
a ONE_ROW_CLOSED
b BASE_OF_ONE
# files that are no log: nobody is served, and they stay as they are
files ..0 | ..0
$ once --data=folder < PACKET
ends Abnormal(StartupFailed(Redo(NoCluster))) 1
says STARTUP_FAILED ABORTING NO_CLUSTER
links 0
$ controldata --data=folder
ends Unreadable(NoCluster) 1
says NO_CLUSTER
a ..0
b ..0
files CLOSED HEADER | CLOSED
$ once --data=folder < PACKET
ends Abnormal(StartupFailed(Redo(NoCluster))) 1
says STARTUP_FAILED ABORTING NO_CLUSTER
links 0
$ controldata --data=folder
ends Unreadable(NoCluster) 1
says NO_CLUSTER
a CLOSED HEADER
b CLOSED
files OPEN | CLOSED
$ once --data=folder < PACKET
ends Abnormal(StartupFailed(Redo(BadFile { file: A, at: 1 }))) 1
says STARTUP_FAILED ABORTING damaged\x20file\x20A\x20at\x201\n
links 0
$ controldata --data=folder
ends Unreadable(BadFile { file: A, at: 1 }) 1
says damaged\x20file\x20A\x20at\x201\n
a OPEN
b CLOSED
files OPEN HEADER | CLOSED
$ once --data=folder < PACKET
ends Abnormal(StartupFailed(Redo(BadFile { file: A, at: 30 }))) 1
says STARTUP_FAILED ABORTING damaged\x20file\x20A\x20at\x2030\n
links 0
$ controldata --data=folder
ends Unreadable(BadFile { file: A, at: 30 }) 1
says damaged\x20file\x20A\x20at\x2030\n
a OPEN HEADER
b CLOSED
files OPEN HEADER OPEN PUT_SEVEN | CLOSED
$ once --data=folder < PACKET
ends Abnormal(StartupFailed(Redo(BadFile { file: A, at: 59 }))) 1
says STARTUP_FAILED ABORTING damaged\x20file\x20A\x20at\x2059\n
links 0
$ controldata --data=folder
ends Unreadable(BadFile { file: A, at: 59 }) 1
says damaged\x20file\x20A\x20at\x2059\n
a OPEN HEADER OPEN PUT_SEVEN
b CLOSED
files CLOSED | OPEN PGPMLOX
$ once --data=folder < PACKET
ends Abnormal(StartupFailed(Redo(BadFile { file: B, at: 7 }))) 1
says STARTUP_FAILED ABORTING damaged\x20file\x20B\x20at\x207\n
links 0
$ controldata --data=folder
ends Unreadable(BadFile { file: B, at: 7 }) 1
says damaged\x20file\x20B\x20at\x207\n
a CLOSED
b OPEN PGPMLOX
files ONE_ROW | ..0
$ once --data=folder < PACKET
ends Abnormal(StartupFailed(Redo(BadFile { file: B, at: 0 }))) 1
says STARTUP_FAILED ABORTING damaged\x20file\x20B\x20at\x200\n
links 0
$ controldata --data=folder
ends Unreadable(BadFile { file: B, at: 0 }) 1
says damaged\x20file\x20B\x20at\x200\n
a ONE_ROW
b ..0
files ONE_ROW | OPEN X
$ once --data=folder < PACKET
ends Abnormal(StartupFailed(Redo(BadFile { file: B, at: 1 }))) 1
says STARTUP_FAILED ABORTING damaged\x20file\x20B\x20at\x201\n
links 0
$ controldata --data=folder
ends Unreadable(BadFile { file: B, at: 1 }) 1
says damaged\x20file\x20B\x20at\x201\n
a ONE_ROW
b OPEN X
files ONE_ROW | OPEN HEADER CLOSED
$ once --data=folder < PACKET
ends Abnormal(StartupFailed(Redo(SameEpoch { epoch: 1 }))) 1
says STARTUP_FAILED ABORTING two\x20files\x20of\x20epoch\x201\n
links 0
$ controldata --data=folder
ends Unreadable(SameEpoch { epoch: 1 }) 1
says two\x20files\x20of\x20epoch\x201\n
a ONE_ROW
b OPEN HEADER CLOSED";

/// Words after the place of the first one that doesn't fit, from 0 on.
const MISFITS: &str = r"
None:
None: once
None: once --data
None: serve --port 5432 --data
None: serve --port 5432 --data=folder
Some(0): server
Some(0): --data folder
Some(1): initdb folder
Some(1): initdb --port 5432
Some(1): workload --data folder
Some(1): once --data=
Some(2): once --data --port
Some(3): initdb --data folder --data other
Some(3): serve --data folder --prot 5432
Some(4): serve --data folder --port 0
Some(2): serve --port=5432 --max-connections=201
None: once --superuser-reserved=20
None: once --superuser-reserved 199 --max-connections
Some(2): once --superuser-reserved 200
Some(2): once --superuser-reserved -1
Some(2): once --superuser-reserved=0 --superuser-reserved=0
Some(4): once --max-connections 20 --superuser-reserved 20
Some(4): once --superuser-reserved 20 --max-connections 20
Some(2): serve --superuser-reserved=20 --max-connections=20 --port 5432
Some(1): workload --superuser-reserved 0
Some(4): once --data folder --restart-after-crash maybe
Some(3): once --data folder -- --restart-after-crash";

#[test]
fn the_first_word_that_does_not_fit_is_found(rt: HostRuntime) -> Result<(), Fail> {
    let alloc = rt.alloc();
    for line in MISFITS.lines() {
        let (want, rest) = line.split_once(':').unwrap_or(("None", ""));
        let words = words_of(alloc, rest)?;
        assert_eq!(rt;
            format!(in alloc; "{:?}", misfit(&words))?.as_str(),
            want,
            "{line}"
        );
    }
    Ok(())
}

/// Words after how many connections are reserved of how many, or after what they get in place of it.
const RESERVED: &str = r"
usage: once --data d --max-connections 0
usage: once --data d --max-connections 201
usage: once --data d --superuser-reserved 20
usage: once --data d --superuser-reserved 200
usage: once --data d --superuser-reserved -1
usage: once --data d --superuser-reserved=-1
usage: once --data d --superuser-reserved +1
usage: once --data d --superuser-reserved=
usage: once --data d --superuser-reserved
usage: once --data d --superuser-reserved 0 --superuser-reserved 0
usage: once --data d --max-connections 1 --superuser-reserved 1
usage: once --data d --superuser-reserved 1 --max-connections 1
usage: serve --data d --port 1 --max-connections 200 --superuser-reserved 200
usage: initdb --data d --superuser-reserved 0
usage: controldata --data d --superuser-reserved 0
usage: workload --number 1 --superuser-reserved 0
0 of 20: once --data d
0 of 20: once --data d --superuser-reserved 0
19 of 20: once --data d --superuser-reserved 19
0 of 1: once --data d --max-connections 1
0 of 1: serve --superuser-reserved=0 --max-connections=1 --data d --port 1
199 of 200: serve --data d --port 1 --max-connections 200 --superuser-reserved 199
199 of 200: serve --superuser-reserved 199 --data d --port 1 --max-connections 200
3 of 200: once --superuser-reserved=3 --data d --max-connections=200";

#[test]
fn fewer_connections_are_reserved_than_there_may_be(rt: HostRuntime) -> Result<(), Fail> {
    let alloc = rt.alloc();
    for line in RESERVED.lines() {
        let (want, rest) = line.split_once(':').unwrap_or(("usage", ""));
        let words = words_of(alloc, rest)?;
        let read = match read_words(&words) {
            Ok(line) => {
                let limits = line.conf.limits;
                format!(in alloc; "{} of {}", limits.reserved, limits.max_connections)?
            }
            Err(WordsNo::Usage) => format!(in alloc; "usage")?,
        };
        assert_eq!(rt; read.as_str(), want, "{line}");
    }
    Ok(())
}

#[test]
fn commands_tell_what_they_find(rt: HostRuntime) -> Result<(), Fail> {
    play(rt, rt.alloc(), SCENES)
}
