//! What the alternatives of the form say, which `grammar/form.py write` makes of `grammar/form.txt`.

ghost use Rattle.std.specs.Prelude.{◌≡◌};
ghost use Rattle.ll_values.specs.Parts.{detail_count, list_count, row_count, typed_count, part_count};

/// Parts of functions and of instructions.
#[derive(Clone, Copy, Drop)]
pub enum DetailKind {
    Source,
    Opaque,
    External,
    Space,
    Param,
    Label,
    Named,
    Bare,
    Local,
    Literal,
    Null,
    Chars,
    Splat,
    Inst,
    Entry,
    NoAlign,
    Align,
    Nuw,
    Nsw,
    NoWraps,
}

/// Lists, and what holds them.
#[derive(Clone, Copy, Drop)]
pub enum ListKind {
    FileMore,
    FileEnd,
    Structure,
    Define,
    Head,
    Parameters,
    ParamsMore,
    ParamsEnd,
    BodyMore,
    BodyEnd,
    TypesMore,
    TypesEnd,
    InArray,
    InStruct,
    ConstsMore,
    ConstsEnd,
    NonePacked,
    Braced,
    EntriesEnd,
    EntriesMore,
}

/// Instructions that are no phi.
#[derive(Clone, Copy, Drop)]
pub enum RowKind {
    Return,
    Unreachable,
    Sum,
    Quotient,
    Bits,
    Or,
    ICmp,
    Cast,
    Trunc,
    ZExt,
    Three,
    Freeze,
    VAArg,
    Load,
    Store,
    Jump,
    Branch,
}

/// What adds types or constants.
#[derive(Clone, Copy, Drop)]
pub enum TypedKind {
    Fields,
    PackedFields,
    Void,
    Int,
    Pointer,
    Flat,
    Array,
    Named,
    Struct,
    Vector,
    Scalable,
    Packed,
    Typed,
    Pair,
    InVector,
    InPacked,
    Phi,
}

/// What an alternative says.
#[derive(Clone, Copy, Drop)]
pub enum Kind {
    /// It is outside of the form.
    Outside,
    Nothing,
    Same,
    Yes,
    No,
    Detail(DetailKind),
    List(ListKind),
    Row(RowKind),
    Typed(TypedKind),
}

impl DetailKind {
    /// How many parts it has: held tokens, and what rules say.
    pub fn part_count(self) -> usize
        ensures { result ≡ detail_count self }
    {
        match self {
            DetailKind::Source => 1,
            DetailKind::Opaque => 0,
            DetailKind::External => 1,
            DetailKind::Space => 1,
            DetailKind::Param => 3,
            DetailKind::Label => 1,
            DetailKind::Named => 2,
            DetailKind::Bare => 1,
            DetailKind::Local => 1,
            DetailKind::Literal => 1,
            DetailKind::Null => 0,
            DetailKind::Chars => 1,
            DetailKind::Splat => 1,
            DetailKind::Inst => 2,
            DetailKind::Entry => 2,
            DetailKind::NoAlign => 0,
            DetailKind::Align => 2,
            DetailKind::Nuw => 1,
            DetailKind::Nsw => 0,
            DetailKind::NoWraps => 0,
        }
    }
}

impl ListKind {
    /// How many parts it has: held tokens, and what rules say.
    pub fn part_count(self) -> usize
        ensures { result ≡ list_count self }
    {
        match self {
            ListKind::FileMore => 2,
            ListKind::FileEnd => 0,
            ListKind::Structure => 2,
            ListKind::Define => 5,
            ListKind::Head => 5,
            ListKind::Parameters => 3,
            ListKind::ParamsMore => 2,
            ListKind::ParamsEnd => 0,
            ListKind::BodyMore => 2,
            ListKind::BodyEnd => 0,
            ListKind::TypesMore => 2,
            ListKind::TypesEnd => 0,
            ListKind::InArray => 1,
            ListKind::InStruct => 1,
            ListKind::ConstsMore => 2,
            ListKind::ConstsEnd => 0,
            ListKind::NonePacked => 0,
            ListKind::Braced => 2,
            ListKind::EntriesEnd => 0,
            ListKind::EntriesMore => 2,
        }
    }
}

impl RowKind {
    /// How many parts it has: held tokens, and what rules say.
    pub fn part_count(self) -> usize
        ensures { result ≡ row_count self }
    {
        match self {
            RowKind::Return => 1,
            RowKind::Unreachable => 0,
            RowKind::Sum => 3,
            RowKind::Quotient => 3,
            RowKind::Bits => 2,
            RowKind::Or => 2,
            RowKind::ICmp => 3,
            RowKind::Cast => 3,
            RowKind::Trunc => 3,
            RowKind::ZExt => 3,
            RowKind::Three => 4,
            RowKind::Freeze => 1,
            RowKind::VAArg => 2,
            RowKind::Load => 4,
            RowKind::Store => 4,
            RowKind::Jump => 1,
            RowKind::Branch => 3,
        }
    }
}

impl TypedKind {
    /// How many parts it has: held tokens, and what rules say.
    pub fn part_count(self) -> usize
        ensures { result ≡ typed_count self }
    {
        match self {
            TypedKind::Fields => 1,
            TypedKind::PackedFields => 1,
            TypedKind::Void => 0,
            TypedKind::Int => 1,
            TypedKind::Pointer => 1,
            TypedKind::Flat => 1,
            TypedKind::Array => 2,
            TypedKind::Named => 1,
            TypedKind::Struct => 1,
            TypedKind::Vector => 2,
            TypedKind::Scalable => 2,
            TypedKind::Packed => 1,
            TypedKind::Typed => 2,
            TypedKind::Pair => 3,
            TypedKind::InVector => 3,
            TypedKind::InPacked => 2,
            TypedKind::Phi => 3,
        }
    }
}

impl Kind {
    /// How many parts it has: held tokens, and what rules say.
    pub fn part_count(self) -> usize
        ensures { result ≡ part_count self }
    {
        match self {
            Kind::Outside => 0,
            Kind::Nothing => 0,
            Kind::Same => 1,
            Kind::Yes => 0,
            Kind::No => 0,
            Kind::Detail(kind) => kind.part_count(),
            Kind::List(kind) => kind.part_count(),
            Kind::Row(kind) => kind.part_count(),
            Kind::Typed(kind) => kind.part_count(),
        }
    }
}

/// The kinds of all alternatives, by their numbers; no alternative has the number 0.
pub static KINDS: [Kind; 541] = [
    Kind::Outside,
    // 1: file = item file
    Kind::List(ListKind::FileMore),
    // 2: file = nothing
    Kind::List(ListKind::FileEnd),
    // 3: item = 'source_filename' '=' STR
    Kind::Detail(DetailKind::Source),
    Kind::Outside,
    // 5: item = LOCAL '=' 'type' type_body
    Kind::List(ListKind::Structure),
    Kind::Outside,
    Kind::Outside,
    // 8: item = 'define' define_linkage head function_attrs attachments '{' body '}'
    Kind::List(ListKind::Define),
    Kind::Outside,
    Kind::Outside,
    Kind::Outside,
    Kind::Outside,
    Kind::Outside,
    Kind::Outside,
    // 15: type_body = 'opaque'
    Kind::Detail(DetailKind::Opaque),
    // 16: type_body = '{' types '}'
    Kind::Typed(TypedKind::Fields),
    // 17: type_body = '<' '{' types '}' '>'
    Kind::Typed(TypedKind::PackedFields),
    Kind::Outside,
    Kind::Outside,
    Kind::Outside,
    Kind::Outside,
    Kind::Outside,
    Kind::Outside,
    Kind::Outside,
    // 25: define_linkage = @'external'
    Kind::Detail(DetailKind::External),
    // 26: define_linkage = nothing
    Kind::Nothing,
    Kind::Outside,
    Kind::Outside,
    Kind::Outside,
    // 30: dso = nothing
    Kind::Nothing,
    Kind::Outside,
    // 32: unnamed = nothing
    Kind::Nothing,
    Kind::Outside,
    Kind::Outside,
    Kind::Outside,
    Kind::Outside,
    Kind::Outside,
    Kind::Outside,
    Kind::Outside,
    Kind::Outside,
    // 41: space = 'addrspace' '(' INT ')'
    Kind::Detail(DetailKind::Space),
    // 42: space = nothing
    Kind::Nothing,
    Kind::Outside,
    Kind::Outside,
    Kind::Outside,
    Kind::Outside,
    Kind::Outside,
    Kind::Outside,
    Kind::Outside,
    // 50: head = dso lost_attrs type GLOBAL parameters
    Kind::List(ListKind::Head),
    // 51: parameters = '(' params ')' unnamed space
    Kind::List(ListKind::Parameters),
    // 52: params = param more_params
    Kind::List(ListKind::ParamsMore),
    Kind::Outside,
    // 54: params = nothing
    Kind::List(ListKind::ParamsEnd),
    // 55: more_params = ',' param_or_dots
    Kind::Same,
    // 56: more_params = nothing
    Kind::List(ListKind::ParamsEnd),
    // 57: param_or_dots = param more_params
    Kind::List(ListKind::ParamsMore),
    Kind::Outside,
    // 59: param = type lost_attrs name
    Kind::Detail(DetailKind::Param),
    // 60: name = LOCAL
    Kind::Same,
    // 61: name = nothing
    Kind::Nothing,
    // 62: body = body_part body_parts
    Kind::List(ListKind::BodyMore),
    // 63: body_parts = body_part body_parts
    Kind::List(ListKind::BodyMore),
    // 64: body_parts = nothing
    Kind::List(ListKind::BodyEnd),
    // 65: body_part = LABEL
    Kind::Detail(DetailKind::Label),
    Kind::Outside,
    // 67: body_part = LOCAL '=' inst
    Kind::Detail(DetailKind::Named),
    // 68: body_part = inst
    Kind::Detail(DetailKind::Bare),
    Kind::Outside,
    Kind::Outside,
    Kind::Outside,
    Kind::Outside,
    // 73: lost_attrs = nothing
    Kind::Nothing,
    Kind::Outside,
    Kind::Outside,
    Kind::Outside,
    Kind::Outside,
    Kind::Outside,
    Kind::Outside,
    Kind::Outside,
    Kind::Outside,
    Kind::Outside,
    Kind::Outside,
    Kind::Outside,
    Kind::Outside,
    // 86: function_attrs = nothing
    Kind::Nothing,
    Kind::Outside,
    Kind::Outside,
    Kind::Outside,
    Kind::Outside,
    Kind::Outside,
    Kind::Outside,
    Kind::Outside,
    Kind::Outside,
    Kind::Outside,
    Kind::Outside,
    Kind::Outside,
    Kind::Outside,
    Kind::Outside,
    Kind::Outside,
    Kind::Outside,
    Kind::Outside,
    Kind::Outside,
    Kind::Outside,
    Kind::Outside,
    Kind::Outside,
    Kind::Outside,
    Kind::Outside,
    Kind::Outside,
    Kind::Outside,
    Kind::Outside,
    Kind::Outside,
    Kind::Outside,
    Kind::Outside,
    Kind::Outside,
    Kind::Outside,
    Kind::Outside,
    Kind::Outside,
    Kind::Outside,
    Kind::Outside,
    Kind::Outside,
    Kind::Outside,
    Kind::Outside,
    Kind::Outside,
    Kind::Outside,
    Kind::Outside,
    Kind::Outside,
    Kind::Outside,
    Kind::Outside,
    Kind::Outside,
    Kind::Outside,
    Kind::Outside,
    Kind::Outside,
    Kind::Outside,
    Kind::Outside,
    Kind::Outside,
    Kind::Outside,
    Kind::Outside,
    Kind::Outside,
    Kind::Outside,
    Kind::Outside,
    Kind::Outside,
    Kind::Outside,
    Kind::Outside,
    Kind::Outside,
    Kind::Outside,
    Kind::Outside,
    Kind::Outside,
    Kind::Outside,
    Kind::Outside,
    Kind::Outside,
    Kind::Outside,
    Kind::Outside,
    Kind::Outside,
    Kind::Outside,
    Kind::Outside,
    Kind::Outside,
    Kind::Outside,
    Kind::Outside,
    Kind::Outside,
    Kind::Outside,
    Kind::Outside,
    Kind::Outside,
    Kind::Outside,
    Kind::Outside,
    Kind::Outside,
    Kind::Outside,
    Kind::Outside,
    Kind::Outside,
    Kind::Outside,
    Kind::Outside,
    Kind::Outside,
    Kind::Outside,
    Kind::Outside,
    Kind::Outside,
    Kind::Outside,
    Kind::Outside,
    Kind::Outside,
    Kind::Outside,
    Kind::Outside,
    Kind::Outside,
    Kind::Outside,
    Kind::Outside,
    Kind::Outside,
    Kind::Outside,
    Kind::Outside,
    Kind::Outside,
    Kind::Outside,
    Kind::Outside,
    Kind::Outside,
    Kind::Outside,
    Kind::Outside,
    Kind::Outside,
    Kind::Outside,
    Kind::Outside,
    Kind::Outside,
    Kind::Outside,
    Kind::Outside,
    Kind::Outside,
    Kind::Outside,
    Kind::Outside,
    Kind::Outside,
    Kind::Outside,
    Kind::Outside,
    Kind::Outside,
    Kind::Outside,
    Kind::Outside,
    Kind::Outside,
    Kind::Outside,
    Kind::Outside,
    Kind::Outside,
    Kind::Outside,
    Kind::Outside,
    Kind::Outside,
    Kind::Outside,
    Kind::Outside,
    Kind::Outside,
    Kind::Outside,
    Kind::Outside,
    Kind::Outside,
    Kind::Outside,
    Kind::Outside,
    Kind::Outside,
    Kind::Outside,
    Kind::Outside,
    Kind::Outside,
    Kind::Outside,
    Kind::Outside,
    Kind::Outside,
    Kind::Outside,
    Kind::Outside,
    Kind::Outside,
    Kind::Outside,
    Kind::Outside,
    Kind::Outside,
    Kind::Outside,
    Kind::Outside,
    Kind::Outside,
    Kind::Outside,
    Kind::Outside,
    Kind::Outside,
    Kind::Outside,
    Kind::Outside,
    Kind::Outside,
    Kind::Outside,
    Kind::Outside,
    Kind::Outside,
    Kind::Outside,
    Kind::Outside,
    Kind::Outside,
    Kind::Outside,
    Kind::Outside,
    Kind::Outside,
    Kind::Outside,
    Kind::Outside,
    Kind::Outside,
    Kind::Outside,
    Kind::Outside,
    Kind::Outside,
    Kind::Outside,
    // 261: type = 'void'
    Kind::Typed(TypedKind::Void),
    // 262: type = INTTYPE
    Kind::Typed(TypedKind::Int),
    // 263: type = 'ptr' space
    Kind::Typed(TypedKind::Pointer),
    // 264: type = FLAT
    Kind::Typed(TypedKind::Flat),
    // 265: type = '[' INT 'x' type ']'
    Kind::Typed(TypedKind::Array),
    // 266: type = '<' angle_type
    Kind::Same,
    // 267: type = LOCAL
    Kind::Typed(TypedKind::Named),
    // 268: type = '{' types '}'
    Kind::Typed(TypedKind::Struct),
    // 269: solid = INTTYPE
    Kind::Typed(TypedKind::Int),
    // 270: solid = 'ptr' space
    Kind::Typed(TypedKind::Pointer),
    // 271: solid = FLAT
    Kind::Typed(TypedKind::Flat),
    // 272: solid = '[' INT 'x' type ']'
    Kind::Typed(TypedKind::Array),
    // 273: solid = '<' angle_type
    Kind::Same,
    // 274: solid = LOCAL
    Kind::Typed(TypedKind::Named),
    // 275: solid = '{' types '}'
    Kind::Typed(TypedKind::Struct),
    // 276: flat = INTTYPE
    Kind::Typed(TypedKind::Int),
    // 277: flat = 'ptr' space
    Kind::Typed(TypedKind::Pointer),
    // 278: flat = FLAT
    Kind::Typed(TypedKind::Flat),
    Kind::Outside,
    Kind::Outside,
    Kind::Outside,
    // 282: angle_type = INT 'x' type '>'
    Kind::Typed(TypedKind::Vector),
    // 283: angle_type = 'vscale' 'x' INT 'x' type '>'
    Kind::Typed(TypedKind::Scalable),
    // 284: angle_type = '{' types '}' '>'
    Kind::Typed(TypedKind::Packed),
    // 285: types = type more_types
    Kind::List(ListKind::TypesMore),
    // 286: types = nothing
    Kind::List(ListKind::TypesEnd),
    // 287: more_types = ',' type more_types
    Kind::List(ListKind::TypesMore),
    // 288: more_types = nothing
    Kind::List(ListKind::TypesEnd),
    Kind::Outside,
    Kind::Outside,
    Kind::Outside,
    Kind::Outside,
    Kind::Outside,
    Kind::Outside,
    Kind::Outside,
    Kind::Outside,
    Kind::Outside,
    Kind::Outside,
    // 299: tconst = type const
    Kind::Typed(TypedKind::Typed),
    // 300: const = INT
    Kind::Detail(DetailKind::Literal),
    // 301: const = CONST
    Kind::Detail(DetailKind::Literal),
    // 302: const = 'null'
    Kind::Detail(DetailKind::Null),
    // 303: const = '[' tconsts ']'
    Kind::List(ListKind::InArray),
    // 304: const = '{' tconsts '}'
    Kind::List(ListKind::InStruct),
    // 305: const = '<' const_angle
    Kind::Same,
    // 306: const = CSTR
    Kind::Detail(DetailKind::Chars),
    // 307: const = 'splat' '(' tconst ')'
    Kind::Detail(DetailKind::Splat),
    Kind::Outside,
    Kind::Outside,
    Kind::Outside,
    Kind::Outside,
    Kind::Outside,
    // 313: const_angle = '{' const_brace
    Kind::Same,
    // 314: const_angle = flat const more_tconsts '>'
    Kind::Typed(TypedKind::InVector),
    Kind::Outside,
    // 316: const_brace = '}' const_empty
    Kind::Same,
    // 317: const_brace = type const_braced
    Kind::Typed(TypedKind::InPacked),
    // 318: const_empty = '>'
    Kind::List(ListKind::NonePacked),
    Kind::Outside,
    // 320: const_braced = const more_tconsts '}' '>'
    Kind::List(ListKind::Braced),
    Kind::Outside,
    Kind::Outside,
    Kind::Outside,
    Kind::Outside,
    // 325: tconsts = tconst more_tconsts
    Kind::List(ListKind::ConstsMore),
    // 326: tconsts = nothing
    Kind::List(ListKind::ConstsEnd),
    // 327: more_tconsts = ',' tconst more_tconsts
    Kind::List(ListKind::ConstsMore),
    // 328: more_tconsts = nothing
    Kind::List(ListKind::ConstsEnd),
    Kind::Outside,
    Kind::Outside,
    // 331: inst = simple attached
    Kind::Detail(DetailKind::Inst),
    Kind::Outside,
    // 333: inst = 'load' load
    Kind::Same,
    // 334: inst = 'store' store
    Kind::Same,
    Kind::Outside,
    Kind::Outside,
    Kind::Outside,
    Kind::Outside,
    Kind::Outside,
    // 340: inst = 'phi' type entry more_entries
    Kind::Typed(TypedKind::Phi),
    // 341: simple = 'ret' ret
    Kind::Row(RowKind::Return),
    // 342: simple = 'br' br
    Kind::Same,
    Kind::Outside,
    Kind::Outside,
    // 345: simple = 'unreachable'
    Kind::Row(RowKind::Unreachable),
    // 346: simple = CONST_SUM_RMW_KIND_SUM wraps pair
    Kind::Row(RowKind::Sum),
    // 347: simple = SUM wraps pair
    Kind::Row(RowKind::Sum),
    // 348: simple = QUOTIENT lost_exact pair
    Kind::Row(RowKind::Quotient),
    // 349: simple = BITS pair
    Kind::Row(RowKind::Bits),
    // 350: simple = BITS_RMW_KIND pair
    Kind::Row(RowKind::Bits),
    // 351: simple = 'or' lost_disjoint pair
    Kind::Row(RowKind::Or),
    // 352: simple = 'icmp' lost_samesign PREDICATE pair
    Kind::Row(RowKind::ICmp),
    // 353: simple = CAST_CONST_CAST typed 'to' type
    Kind::Row(RowKind::Cast),
    // 354: simple = CAST typed 'to' type
    Kind::Row(RowKind::Cast),
    // 355: simple = 'trunc' lost_wraps typed 'to' type
    Kind::Row(RowKind::Trunc),
    // 356: simple = 'zext' nneg typed 'to' type
    Kind::Row(RowKind::ZExt),
    Kind::Outside,
    Kind::Outside,
    // 359: simple = SIMPLE typed ',' typed ',' typed
    Kind::Row(RowKind::Three),
    Kind::Outside,
    // 361: simple = 'freeze' typed
    Kind::Row(RowKind::Freeze),
    // 362: simple = 'va_arg' typed ',' type
    Kind::Row(RowKind::VAArg),
    Kind::Outside,
    // 364: value = LOCAL
    Kind::Detail(DetailKind::Local),
    // 365: value = INT
    Kind::Detail(DetailKind::Literal),
    // 366: value = CONST
    Kind::Detail(DetailKind::Literal),
    // 367: value = 'null'
    Kind::Detail(DetailKind::Null),
    // 368: value = '[' tconsts ']'
    Kind::List(ListKind::InArray),
    // 369: value = '{' tconsts '}'
    Kind::List(ListKind::InStruct),
    // 370: value = '<' const_angle
    Kind::Same,
    // 371: value = CSTR
    Kind::Detail(DetailKind::Chars),
    // 372: value = 'splat' '(' tconst ')'
    Kind::Detail(DetailKind::Splat),
    Kind::Outside,
    Kind::Outside,
    Kind::Outside,
    Kind::Outside,
    Kind::Outside,
    // 378: typed = type value
    Kind::Typed(TypedKind::Typed),
    // 379: pair = type value ',' value
    Kind::Typed(TypedKind::Pair),
    // 380: ret = 'void'
    Kind::Nothing,
    // 381: ret = solid value
    Kind::Typed(TypedKind::Typed),
    // 382: br = 'label' LOCAL
    Kind::Row(RowKind::Jump),
    // 383: br = typed ',' 'label' LOCAL ',' 'label' LOCAL
    Kind::Row(RowKind::Branch),
    Kind::Outside,
    Kind::Outside,
    Kind::Outside,
    Kind::Outside,
    Kind::Outside,
    Kind::Outside,
    Kind::Outside,
    Kind::Outside,
    // 392: wraps = 'nuw' nsw
    Kind::Detail(DetailKind::Nuw),
    // 393: wraps = 'nsw'
    Kind::Detail(DetailKind::Nsw),
    // 394: wraps = nothing
    Kind::Detail(DetailKind::NoWraps),
    // 395: nsw = 'nsw'
    Kind::Yes,
    // 396: nsw = nothing
    Kind::No,
    Kind::Outside,
    Kind::Outside,
    // 399: lost_wraps = nothing
    Kind::Nothing,
    Kind::Outside,
    Kind::Outside,
    Kind::Outside,
    Kind::Outside,
    Kind::Outside,
    Kind::Outside,
    // 406: lost_exact = nothing
    Kind::Nothing,
    Kind::Outside,
    Kind::Outside,
    Kind::Outside,
    // 410: lost_disjoint = nothing
    Kind::Nothing,
    Kind::Outside,
    // 412: lost_samesign = nothing
    Kind::Nothing,
    Kind::Outside,
    Kind::Outside,
    Kind::Outside,
    // 416: nneg = 'nneg'
    Kind::Yes,
    // 417: nneg = nothing
    Kind::No,
    Kind::Outside,
    Kind::Outside,
    Kind::Outside,
    Kind::Outside,
    Kind::Outside,
    Kind::Outside,
    Kind::Outside,
    Kind::Outside,
    Kind::Outside,
    Kind::Outside,
    Kind::Outside,
    Kind::Outside,
    Kind::Outside,
    Kind::Outside,
    Kind::Outside,
    // 433: load = volatile type ',' typed align_attached
    Kind::Row(RowKind::Load),
    Kind::Outside,
    Kind::Outside,
    // 436: store = volatile typed ',' typed align_attached
    Kind::Row(RowKind::Store),
    Kind::Outside,
    Kind::Outside,
    // 439: volatile = 'volatile'
    Kind::Yes,
    // 440: volatile = nothing
    Kind::No,
    Kind::Outside,
    Kind::Outside,
    Kind::Outside,
    Kind::Outside,
    Kind::Outside,
    Kind::Outside,
    Kind::Outside,
    Kind::Outside,
    Kind::Outside,
    Kind::Outside,
    Kind::Outside,
    Kind::Outside,
    Kind::Outside,
    Kind::Outside,
    Kind::Outside,
    Kind::Outside,
    Kind::Outside,
    Kind::Outside,
    Kind::Outside,
    Kind::Outside,
    Kind::Outside,
    Kind::Outside,
    Kind::Outside,
    Kind::Outside,
    Kind::Outside,
    // 466: entry = '[' value ',' LOCAL ']'
    Kind::Detail(DetailKind::Entry),
    // 467: more_entries = ',' entry_or_node
    Kind::Same,
    // 468: more_entries = nothing
    Kind::List(ListKind::EntriesEnd),
    // 469: entry_or_node = entry more_entries
    Kind::List(ListKind::EntriesMore),
    Kind::Outside,
    // 471: align_attached = ',' align_or_attached
    Kind::Same,
    // 472: align_attached = nothing
    Kind::Detail(DetailKind::NoAlign),
    // 473: align_or_attached = 'align' INT attached
    Kind::Detail(DetailKind::Align),
    Kind::Outside,
    Kind::Outside,
    Kind::Outside,
    Kind::Outside,
    Kind::Outside,
    Kind::Outside,
    Kind::Outside,
    Kind::Outside,
    Kind::Outside,
    Kind::Outside,
    Kind::Outside,
    Kind::Outside,
    Kind::Outside,
    Kind::Outside,
    Kind::Outside,
    Kind::Outside,
    Kind::Outside,
    Kind::Outside,
    Kind::Outside,
    Kind::Outside,
    Kind::Outside,
    // 495: attached = nothing
    Kind::Nothing,
    Kind::Outside,
    // 497: attachments = nothing
    Kind::Nothing,
    Kind::Outside,
    Kind::Outside,
    Kind::Outside,
    Kind::Outside,
    Kind::Outside,
    Kind::Outside,
    Kind::Outside,
    Kind::Outside,
    Kind::Outside,
    Kind::Outside,
    Kind::Outside,
    Kind::Outside,
    Kind::Outside,
    Kind::Outside,
    Kind::Outside,
    Kind::Outside,
    Kind::Outside,
    Kind::Outside,
    Kind::Outside,
    Kind::Outside,
    Kind::Outside,
    Kind::Outside,
    Kind::Outside,
    Kind::Outside,
    Kind::Outside,
    Kind::Outside,
    Kind::Outside,
    Kind::Outside,
    Kind::Outside,
    Kind::Outside,
    Kind::Outside,
    Kind::Outside,
    Kind::Outside,
    Kind::Outside,
    Kind::Outside,
    Kind::Outside,
    Kind::Outside,
    Kind::Outside,
    Kind::Outside,
    Kind::Outside,
    Kind::Outside,
    Kind::Outside,
    Kind::Outside,
];
