//! The programs whose commands fail: a counter, and two threads that count up one variable.

pub const COUNTER: &[u8] = b"int count;\nint main(void) {\n    count++;\n}\n";

pub const COUNTER_REPORT: &[u8] = b"{\"reports\":[{\"kind\":\"atomicity\",
 \"p\":{\"line\":3,\"var\":\"count\",\"access\":\"read\"},
 \"c\":{\"line\":3,\"var\":\"count\",\"access\":\"write\"},
 \"r\":{\"line\":3,\"var\":\"count\",\"access\":\"write\"}}]}
";

/// What is written for it.
pub const COUNTER_PATCHED: &[u8] = b"#include <pthread.h>
#include <stdio.h>
#include \"cfix.h\"

int count = 0;

int main(void) {
    cfix_enter(0);
    count++;
    cfix_leave(0);
}
";

/// A canonical text, which is shown unchanged.
pub fn classic() -> &'static [u8] {
    b"#include <pthread.h>
#include <stdio.h>
#include \"cfix.h\"

int count = 0;

void *worker(void *arg);

void *worker(void *arg) {
    cfix_enter(0);
    count++;
    cfix_leave(0);
    return NULL;
}

int main(void) {
    pthread_t a;
    pthread_t b;
    pthread_create(&a, NULL, worker, NULL);
    pthread_create(&b, NULL, worker, NULL);
    pthread_join(a, NULL);
    pthread_join(b, NULL);
    printf(\"%d\\n\", count);
    return 0;
}
"
}

/// Fourteen steps of main, one of the first thread, and a timeout of the second.
pub const CLASSIC_ENTRIES: &[u8] = b"0\n0\n0\n0\n0\n0\n0\n0\n0\n0\n0\n0\n0\n0\n1\n2!\n";

pub fn classic_steps() -> &'static [u8] {
    b"1 0 begin 2
2 0 silent
3 0 silent
4 0 begin 3
5 0 silent
6 0 silent
7 0 begin 4
8 0 silent
9 0 create 1
10 0 silent
11 0 begin 5
12 0 silent
13 0 create 2
14 0 silent
15 1 enter 0
16 2 enter 0 missed
open
"
}

pub const OVERFLOW: &[u8] = b"int x; int main(void) { x = 2147483647; x++; return 0; }";

pub const OVERFLOW_ENTRIES: &[u8] = b"0\n0\n0\n0\n0\n0\n0\n0\n";

pub fn overflow_steps() -> &'static [u8] {
    b"1 0 begin 0
2 0 silent
3 0 write x 2147483647
4 0 silent
5 0 begin 1
6 0 read x 2147483647
7 0 silent
8 0 trap
trap overflow
"
}
