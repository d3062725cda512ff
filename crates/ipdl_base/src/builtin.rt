//! The builtin types and their names.
ghost use Rattle.std.specs.Prelude.{◌≡◌, IfSome, IfNone, length, true};
ghost use Rattle.std.specs.List.{Contains};
ghost use Rattle.ipdl_base.specs.Builtins.{builtin_name, is_carried};

/// A type that needs no declaration (docs/language.md, "Builtin types"). `Endpoint` and
/// `ManagedEndpoint`, which take a protocol, are shapes of their own.
#[derive(Clone, Copy, Debug, PartialEq, Eq)]
pub enum Builtin {
    Bool,
    Char,
    Int8,
    Uint8,
    Short,
    Int16,
    Uint16,
    Int,
    Int32,
    Uint32,
    NsResult,
    Long,
    Int64,
    IntPtr,
    Uint64,
    UintPtr,
    Float,
    Double,
    NsString,
    NsCString,
    ByteBuf,
    Shmem,
    FileDescriptor,
}

impl Builtin {
    /// Returns the word by which a type names the builtin.
    pub fn name(self) -> &'static [u8]
        ensures { result.now ≡ builtin_name self }
    {
        match self {
            Builtin::Bool => b"bool",
            Builtin::Char => b"char",
            Builtin::Int8 => b"int8_t",
            Builtin::Uint8 => b"uint8_t",
            Builtin::Short => b"short",
            Builtin::Int16 => b"int16_t",
            Builtin::Uint16 => b"uint16_t",
            Builtin::Int => b"int",
            Builtin::Int32 => b"int32_t",
            Builtin::Uint32 => b"uint32_t",
            Builtin::NsResult => b"nsresult",
            Builtin::Long => b"long",
            Builtin::Int64 => b"int64_t",
            Builtin::IntPtr => b"intptr_t",
            Builtin::Uint64 => b"uint64_t",
            Builtin::UintPtr => b"uintptr_t",
            Builtin::Float => b"float",
            Builtin::Double => b"double",
            Builtin::NsString => b"nsString",
            Builtin::NsCString => b"nsCString",
            Builtin::ByteBuf => b"ByteBuf",
            Builtin::Shmem => b"Shmem",
            Builtin::FileDescriptor => b"FileDescriptor",
        }
    }

    /// Returns the builtin with this name, or `None` if no builtin has it.
    pub fn from_name(name: &[u8]) -> Option<Builtin>
        ensures some { IfSome result (λ found. builtin_name found ≡ name.now) }
        ensures none { IfNone result ((other : Builtin) → ¬ (builtin_name other ≡ name.now)) }
    {
        if !ends_as_builtin(name) {
            return None;
        }
        of_length(name.len())
            .iter()
            .copied()
            .find(|builtin| builtin.name() == name)
    }

    /// Returns whether a channel carries values of the type.
    pub fn is_carried(self) -> bool
        ensures { result ≡ is_carried self }
    {
        !matches!(self, Builtin::Shmem | Builtin::FileDescriptor)
    }
}

/// Returns whether the last byte of a name is the last byte of some builtin's name.
fn ends_as_builtin(name: &[u8]) -> bool
    ensures { (other : Builtin) → builtin_name other ≡ name.now → result ≡ true }
{
    match name.last() {
        Some(last) => matches!(last, b'e' | b'f' | b'g' | b'l' | b'm' | b'r' | b't'),
        None => false,
    }
}

/// Returns the builtins whose names have `bytes` bytes, the most common ones first.
fn of_length(bytes: usize) -> &'static [Builtin]
    ensures { (other : Builtin) → length (builtin_name other) ≡ bytes → Contains result.now other }
{
    match bytes {
        3 => &[Builtin::Int],
        4 => &[Builtin::Bool, Builtin::Long, Builtin::Char],
        5 => &[Builtin::Float, Builtin::Shmem, Builtin::Short],
        6 => &[Builtin::Double, Builtin::Int8],
        7 => &[
            Builtin::Int32,
            Builtin::Uint8,
            Builtin::Int64,
            Builtin::ByteBuf,
            Builtin::Int16,
        ],
        8 => &[
            Builtin::NsString,
            Builtin::Uint32,
            Builtin::Uint64,
            Builtin::NsResult,
            Builtin::Uint16,
            Builtin::IntPtr,
        ],
        9 => &[Builtin::NsCString, Builtin::UintPtr],
        14 => &[Builtin::FileDescriptor],
        _ => &[],
    }
}
