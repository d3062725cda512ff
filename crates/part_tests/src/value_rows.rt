//! Rows on values and their types.

/// Rows `SHAPE | VALUE | ANSWER`. A type is a word, and after it the parts of it; the parts of a value
/// come after it, and texts and bytes are pairs of hexadecimal digits. The answer to a value that the type
/// has is its sizes in the old and the new layout, and its text.
pub const VALUE_ROWS: &str = "char | int:-128 | 1 4 = -128
char | int:127 | 1 4 = 127
char | int:-129 | misfit
char | int:128 | misfit
int8_t | int:-128 | 1 4 = -128
int8_t | int:127 | 1 4 = 127
int8_t | int:-129 | misfit
int8_t | int:128 | misfit
uint8_t | int:0 | 1 4 = 0
uint8_t | int:255 | 1 4 = 255
uint8_t | int:-1 | misfit
uint8_t | int:256 | misfit
short | int:-32768 | 2 4 = -32768
short | int:32767 | 2 4 = 32767
short | int:-32769 | misfit
short | int:32768 | misfit
int16_t | int:-32768 | 2 4 = -32768
int16_t | int:32767 | 2 4 = 32767
int16_t | int:-32769 | misfit
int16_t | int:32768 | misfit
uint16_t | int:0 | 2 4 = 0
uint16_t | int:65535 | 2 4 = 65535
uint16_t | int:-1 | misfit
uint16_t | int:65536 | misfit
int | int:-2147483648 | 4 4 = -2147483648
int | int:2147483647 | 4 4 = 2147483647
int | int:-2147483649 | misfit
int | int:2147483648 | misfit
int32_t | int:-2147483648 | 4 4 = -2147483648
int32_t | int:2147483647 | 4 4 = 2147483647
int32_t | int:-2147483649 | misfit
int32_t | int:2147483648 | misfit
uint32_t | int:0 | 4 4 = 0
uint32_t | int:4294967295 | 4 4 = 4294967295
uint32_t | int:-1 | misfit
uint32_t | int:4294967296 | misfit
nsresult | int:0 | 4 4 = 0
nsresult | int:4294967295 | 4 4 = 4294967295
nsresult | int:-1 | misfit
nsresult | int:4294967296 | misfit
long | int:-9223372036854775808 | 8 8 = -9223372036854775808
long | int:9223372036854775807 | 8 8 = 9223372036854775807
long | int:-9223372036854775809 | misfit
long | int:9223372036854775808 | misfit
int64_t | int:-9223372036854775808 | 8 8 = -9223372036854775808
int64_t | int:9223372036854775807 | 8 8 = 9223372036854775807
int64_t | int:-9223372036854775809 | misfit
int64_t | int:9223372036854775808 | misfit
intptr_t | int:-9223372036854775808 | 8 8 = -9223372036854775808
intptr_t | int:9223372036854775807 | 8 8 = 9223372036854775807
intptr_t | int:-9223372036854775809 | misfit
intptr_t | int:9223372036854775808 | misfit
uint64_t | int:0 | 8 8 = 0
uint64_t | int:18446744073709551615 | 8 8 = 18446744073709551615
uint64_t | int:-1 | misfit
uint64_t | int:18446744073709551616 | misfit
uintptr_t | int:0 | 8 8 = 0
uintptr_t | int:18446744073709551615 | 8 8 = 18446744073709551615
uintptr_t | int:-1 | misfit
uintptr_t | int:18446744073709551616 | misfit
float | bits:0 | 4 4 = h\"00000000\"
float | bits:1065353216 | 4 4 = h\"3f800000\"
float | bits:4294967295 | 4 4 = h\"ffffffff\"
double | bits:0 | 8 8 = h\"0000000000000000\"
double | bits:18446744073709551615 | 8 8 = h\"ffffffffffffffff\"
nsString | text: | 4 4 = \"\"
nsString | text:61225c0a09011f7fc3a92041 | 16 16 = \"a\\\"\\\\\\n\\t\\x01\\x1f\\x7fé A\"
nsCString | bytes:00abff | 7 8 = h\"00abff\"
ByteBuf | bytes: | 4 4 = h\"\"
gfx::Size | bytes:20 | 5 8 = h\"20\"
bool | true | 1 4 = true
bool | false | 1 4 = false
Pair | struct int:7 true | 3 12 = {7, true}
Either | union:0 text:78 | 9 12 = @0 \"x\"
Either | union:1 struct int:7 true | 7 16 = @1 {7, true}
int16_t [] | array int:1 int:-2 | 8 12 = [1, -2]
Shmem [] | array | 4 4 = []
int32_t ? | none | 1 4 = none
int32_t ? | some int:5 | 5 8 = some 5
Pair unique | some struct int:7 true | 4 16 = some {7, true}
actor | actor:7 | 4 4 = #7
actor | actor:-3 | 4 4 = #-3
nullable | actor:0 | 4 4 = null
bool | int:1 | misfit
int32_t | true | misfit
float | bits:4294967296 | misfit
int32_t | bits:0 | misfit
nsString | text:ff | misfit
nsCString | text:78 | misfit
nsString | bytes:78 | misfit
Shmem | bytes: | misfit
endpoint | actor:1 | misfit
Pair | struct int:7 | misfit
Pair | struct int:7 int:7 true | misfit
Either | struct | misfit
Absent | struct | misfit
Either | union:2 int:0 | misfit
Either | union:0 int:0 | misfit
Shmem [] | array int:1 int:-2 | misfit
uint8_t [] | array int:1 int:-2 | misfit
bool ? | some int:1 | misfit
actor | actor:0 | misfit";
