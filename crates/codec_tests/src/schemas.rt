//! The program of the tests.
ghost use Rattle.std.specs.Prelude.{IfOk};
ghost use Rattle.ipdl_base.specs.Sound.{IsSound};

use ipdl_base::Schema;
use memory_files::MemoryFiles;
use schema_of_text::schema_of;
use std::alloc::Global;
use std::test::Fail;

/// The files of the one program. Its protocols are numbered by their names: `PK` is 0 and `PT` is 1.
const FILES: &[(&str, &str)] = &[
    (
        "PT.ipdl",
        "include protocol PK;
using a::Handle from \"a.h\";
struct Pair { int16_t a; bool? b; };
union Either { bool; nsString; Either[]; };
[NestedUpTo=inside_cpow] sync protocol PT {
  manages PK;
parent:
  async Flag(bool b);
  async Small(char c, int8_t i, uint8_t u);
  async Middle(short s, int16_t i, uint16_t u);
  async Large(int i, int32_t j, uint32_t u, nsresult n);
  async Huge(long l, int64_t i, intptr_t p, uint64_t u, uintptr_t v);
  async Floats(float f, double d);
  async Texts(nsString s, nsCString c, ByteBuf b, Handle h);
  async Nested(Pair p, Either e);
  async Actors(PT t, nullable PK k, UniquePtr<bool> u, int8_t[] xs);
  async PK();
  sync Ask() returns (int32_t r);
  [Compress] async Last();
  [Compress=all] async All();
  async Get() returns (bool r);
  async Handed(Shmem s);
child:
  [Nested=inside_sync] sync CallC() returns (int32_t r);
parent:
  [Nested=inside_cpow] async Poke();
};
",
    ),
    (
        "PK.ipdl",
        "include protocol PT;
protocol PK {
  manager PT;
parent:
  async __delete__();
};
",
    ),
];

/// Returns the schema of the one program.
pub fn the_schema(alloc: Global) -> Result<Schema, Fail>
    ensures { IfOk result IsSound }
{
    let mut files = Vec::new(alloc);
    for (name, text) in FILES {
        let name = String::from_str(alloc, name)?;
        files.push((name, Vec::from_slice(alloc, text.as_bytes())?))?;
    }
    schema_of(alloc, MemoryFiles::new(files, Vec::new(alloc)), "PT.ipdl")
}
