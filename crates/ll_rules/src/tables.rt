//! The grammar of LLVM text in tables, which `grammar/tables.py merged rust` makes of `grammar/ll.grammar`.

ghost use Rattle.std.specs.Prelude.{◌≡◌};
ghost use Rattle.grammars.specs.FlatGrammar.{grammar_of};
ghost use Rattle.ll_rules.specs.Llvm.{llvm};

use grammars::grammar::Grammar;
use grammars::rows::{Alternative, Row};
use grammars::symbols::Symbol;

/// The symbols of all alternatives, those of each with the last first.
pub static SYMBOLS: [Symbol; 998] = [
    // 1: file = item file
    Symbol::Rule(0),
    Symbol::Rule(1),
    // 2: file = nothing
    // 3: item = 'source_filename' '=' STR
    Symbol::Leaf(4),
    Symbol::Word(43),
    Symbol::Word(111),
    // 4: item = 'target' target '=' STR
    Symbol::Leaf(4),
    Symbol::Word(43),
    Symbol::Rule(2),
    Symbol::Word(116),
    // 5: item = LOCAL '=' 'type' type_body
    Symbol::Rule(4),
    Symbol::Word(119),
    Symbol::Word(43),
    Symbol::Leaf(1),
    // 6: item = GLOBAL '=' symbol
    Symbol::Rule(12),
    Symbol::Word(43),
    Symbol::Leaf(0),
    // 7: item = 'declare' attachments declare_linkage head function_attrs
    Symbol::Rule(35),
    Symbol::Rule(21),
    Symbol::Rule(9),
    Symbol::Rule(148),
    Symbol::Word(77),
    // 8: item = 'define' define_linkage head function_attrs attachments '{' body '}'
    Symbol::Word(50),
    Symbol::Rule(28),
    Symbol::Word(49),
    Symbol::Rule(148),
    Symbol::Rule(35),
    Symbol::Rule(21),
    Symbol::Rule(8),
    Symbol::Word(78),
    // 9: item = 'attributes' GROUP '=' '{' group_attrs '}'
    Symbol::Word(50),
    Symbol::Rule(39),
    Symbol::Word(49),
    Symbol::Word(43),
    Symbol::Leaf(6),
    Symbol::Word(71),
    // 10: item = mdname '=' '!' '{' mdrefs '}'
    Symbol::Word(50),
    Symbol::Rule(151),
    Symbol::Word(49),
    Symbol::Word(53),
    Symbol::Word(43),
    Symbol::Rule(149),
    // 11: item = MDNUM '=' distinct node
    Symbol::Rule(153),
    Symbol::Rule(3),
    Symbol::Word(43),
    Symbol::Leaf(8),
    // 12: target = TARGET
    Symbol::Leaf(15),
    // 13: distinct = 'distinct'
    Symbol::Word(81),
    // 14: distinct = nothing
    // 15: type_body = 'opaque'
    Symbol::Word(103),
    // 16: type_body = '{' types '}'
    Symbol::Word(50),
    Symbol::Rule(64),
    Symbol::Word(49),
    // 17: type_body = '<' '{' types '}' '>'
    Symbol::Word(52),
    Symbol::Word(50),
    Symbol::Rule(64),
    Symbol::Word(49),
    Symbol::Word(51),
    // 18: body_linkage = BODY_LINKAGE
    Symbol::Leaf(16),
    // 19: body_linkage = @'weak'
    Symbol::Leaf(126),
    // 20: data_linkage = body_linkage
    Symbol::Rule(5),
    // 21: data_linkage = DATA_LINKAGE
    Symbol::Leaf(17),
    // 22: outer_linkage = @'external'
    Symbol::Leaf(85),
    // 23: outer_linkage = @'extern_weak'
    Symbol::Leaf(84),
    // 24: define_linkage = body_linkage
    Symbol::Rule(5),
    // 25: define_linkage = @'external'
    Symbol::Leaf(85),
    // 26: define_linkage = nothing
    // 27: declare_linkage = outer_linkage
    Symbol::Rule(7),
    // 28: declare_linkage = nothing
    // 29: dso = DSO
    Symbol::Leaf(18),
    // 30: dso = nothing
    // 31: unnamed = UNNAMED
    Symbol::Leaf(19),
    // 32: unnamed = nothing
    // 33: symbol = outer_linkage dso unnamed outer_symbol
    Symbol::Rule(13),
    Symbol::Rule(11),
    Symbol::Rule(10),
    Symbol::Rule(7),
    // 34: symbol = data_linkage dso unnamed inner_symbol
    Symbol::Rule(14),
    Symbol::Rule(11),
    Symbol::Rule(10),
    Symbol::Rule(6),
    // 35: symbol = dso unnamed inner_symbol
    Symbol::Rule(14),
    Symbol::Rule(11),
    Symbol::Rule(10),
    // 36: outer_symbol = space storage type variable_tail
    Symbol::Rule(17),
    Symbol::Rule(60),
    Symbol::Rule(15),
    Symbol::Rule(16),
    // 37: outer_symbol = 'alias' alias
    Symbol::Rule(20),
    Symbol::Word(64),
    // 38: inner_symbol = space storage tconst variable_tail
    Symbol::Rule(17),
    Symbol::Rule(71),
    Symbol::Rule(15),
    Symbol::Rule(16),
    // 39: inner_symbol = 'alias' alias
    Symbol::Rule(20),
    Symbol::Word(64),
    // 40: storage = STORAGE
    Symbol::Leaf(20),
    // 41: space = 'addrspace' '(' INT ')'
    Symbol::Word(46),
    Symbol::Leaf(3),
    Symbol::Word(45),
    Symbol::Word(63),
    // 42: space = nothing
    // 43: variable_tail = ',' align_or_node
    Symbol::Rule(18),
    Symbol::Word(44),
    // 44: variable_tail = lost_groups
    Symbol::Rule(19),
    // 45: align_or_node = 'align' INT attached lost_groups
    Symbol::Rule(19),
    Symbol::Rule(147),
    Symbol::Leaf(3),
    Symbol::Word(65),
    // 46: align_or_node = mdname mdref attached lost_groups
    Symbol::Rule(19),
    Symbol::Rule(147),
    Symbol::Rule(150),
    Symbol::Rule(149),
    // 47: lost_groups = GROUP lost_groups
    Symbol::Rule(19),
    Symbol::Leaf(6),
    // 48: lost_groups = nothing
    // 49: alias = called_type ',' tconst
    Symbol::Rule(71),
    Symbol::Word(44),
    Symbol::Rule(66),
    // 50: head = dso lost_attrs type GLOBAL parameters
    Symbol::Rule(22),
    Symbol::Leaf(0),
    Symbol::Rule(60),
    Symbol::Rule(32),
    Symbol::Rule(10),
    // 51: parameters = '(' params ')' unnamed space
    Symbol::Rule(16),
    Symbol::Rule(11),
    Symbol::Word(46),
    Symbol::Rule(23),
    Symbol::Word(45),
    // 52: params = param more_params
    Symbol::Rule(24),
    Symbol::Rule(26),
    // 53: params = '...'
    Symbol::Word(55),
    // 54: params = nothing
    // 55: more_params = ',' param_or_dots
    Symbol::Rule(25),
    Symbol::Word(44),
    // 56: more_params = nothing
    // 57: param_or_dots = param more_params
    Symbol::Rule(24),
    Symbol::Rule(26),
    // 58: param_or_dots = '...'
    Symbol::Word(55),
    // 59: param = type lost_attrs name
    Symbol::Rule(27),
    Symbol::Rule(32),
    Symbol::Rule(60),
    // 60: name = LOCAL
    Symbol::Leaf(1),
    // 61: name = nothing
    // 62: body = body_part body_parts
    Symbol::Rule(29),
    Symbol::Rule(30),
    // 63: body_parts = body_part body_parts
    Symbol::Rule(29),
    Symbol::Rule(30),
    // 64: body_parts = nothing
    // 65: body_part = LABEL
    Symbol::Leaf(2),
    // 66: body_part = RECORD node_parens line
    Symbol::Rule(31),
    Symbol::Rule(53),
    Symbol::Leaf(7),
    // 67: body_part = LOCAL '=' inst
    Symbol::Rule(82),
    Symbol::Word(43),
    Symbol::Leaf(1),
    // 68: body_part = inst
    Symbol::Rule(82),
    // 69: line = RECORD node_parens line
    Symbol::Rule(31),
    Symbol::Rule(53),
    Symbol::Leaf(7),
    // 70: line = LOCAL '=' inst
    Symbol::Rule(82),
    Symbol::Word(43),
    Symbol::Leaf(1),
    // 71: line = inst
    Symbol::Rule(82),
    // 72: lost_attrs = lost_attr lost_attrs
    Symbol::Rule(32),
    Symbol::Rule(33),
    // 73: lost_attrs = nothing
    // 74: lost_attr = ENUM_ATTR_LOST_ATTR
    Symbol::Leaf(21),
    // 75: lost_attr = @'nocapture'
    Symbol::Leaf(99),
    // 76: lost_attr = @'dead_on_return'
    Symbol::Leaf(76),
    // 77: lost_attr = @'align' INT
    Symbol::Leaf(3),
    Symbol::Leaf(65),
    // 78: lost_attr = LOST_ATTR_NUMBER_ATTR '(' INT ')'
    Symbol::Word(46),
    Symbol::Leaf(3),
    Symbol::Word(45),
    Symbol::Leaf(22),
    // 79: lost_attr = EITHER_ATTR_LOST_ATTR parens
    Symbol::Rule(51),
    Symbol::Leaf(23),
    // 80: lost_attr = LOST_ATTR_RANGE_ATTR parens
    Symbol::Rule(51),
    Symbol::Leaf(24),
    // 81: lost_attr = @'elementtype' '(' type ')'
    Symbol::Word(46),
    Symbol::Rule(60),
    Symbol::Word(45),
    Symbol::Leaf(82),
    // 82: lost_attr = STR text_value
    Symbol::Rule(34),
    Symbol::Leaf(4),
    // 83: text_value = '=' STR
    Symbol::Leaf(4),
    Symbol::Word(43),
    // 84: text_value = nothing
    // 85: function_attrs = function_attr function_attrs
    Symbol::Rule(35),
    Symbol::Rule(36),
    // 86: function_attrs = nothing
    // 87: function_attr = GROUP
    Symbol::Leaf(6),
    // 88: function_attr = attr
    Symbol::Rule(41),
    // 89: function_attr = @'align' align_value
    Symbol::Rule(37),
    Symbol::Leaf(65),
    // 90: align_value = INT
    Symbol::Leaf(3),
    // 91: align_value = '(' 'int' INT ')'
    Symbol::Word(46),
    Symbol::Leaf(3),
    Symbol::Word(95),
    Symbol::Word(45),
    // 92: call_attrs = GROUP call_attrs
    Symbol::Rule(38),
    Symbol::Leaf(6),
    // 93: call_attrs = group_attr call_attrs
    Symbol::Rule(38),
    Symbol::Rule(40),
    // 94: call_attrs = nothing
    // 95: group_attrs = group_attr group_attrs
    Symbol::Rule(39),
    Symbol::Rule(40),
    // 96: group_attrs = nothing
    // 97: group_attr = attr
    Symbol::Rule(41),
    // 98: group_attr = 'align' '(' 'int' INT ')'
    Symbol::Word(46),
    Symbol::Leaf(3),
    Symbol::Word(95),
    Symbol::Word(45),
    Symbol::Word(65),
    // 99: attr = STR text_value
    Symbol::Rule(34),
    Symbol::Leaf(4),
    // 100: attr = enum_attr
    Symbol::Rule(50),
    // 101: attr = 'alignstack' stack_value
    Symbol::Rule(42),
    Symbol::Word(66),
    // 102: attr = 'uwtable' unwind_value
    Symbol::Rule(44),
    Symbol::Word(121),
    // 103: attr = number_attr '(' 'int' INT ')'
    Symbol::Word(46),
    Symbol::Leaf(3),
    Symbol::Word(95),
    Symbol::Word(45),
    Symbol::Rule(46),
    // 104: attr = either_attr '(' number_or_inside
    Symbol::Rule(48),
    Symbol::Word(45),
    Symbol::Rule(47),
    // 105: attr = range_attr parens
    Symbol::Rule(51),
    Symbol::Rule(49),
    // 106: attr = 'elementtype' '(' type ')'
    Symbol::Word(46),
    Symbol::Rule(60),
    Symbol::Word(45),
    Symbol::Word(82),
    // 107: stack_value = '(' stack_number ')'
    Symbol::Word(46),
    Symbol::Rule(43),
    Symbol::Word(45),
    // 108: stack_value = '=' INT
    Symbol::Leaf(3),
    Symbol::Word(43),
    // 109: stack_number = INT
    Symbol::Leaf(3),
    // 110: stack_number = 'int' INT
    Symbol::Leaf(3),
    Symbol::Word(95),
    // 111: unwind_value = '(' unwind_number ')'
    Symbol::Word(46),
    Symbol::Rule(45),
    Symbol::Word(45),
    // 112: unwind_value = nothing
    // 113: unwind_number = UNWIND_NUMBER
    Symbol::Leaf(25),
    // 114: unwind_number = 'int' INT
    Symbol::Leaf(3),
    Symbol::Word(95),
    // 115: number_attr = 'dead_on_return'
    Symbol::Word(76),
    // 116: number_attr = 'denormal_fpenv'
    Symbol::Word(79),
    // 117: number_attr = LOST_ATTR_NUMBER_ATTR
    Symbol::Leaf(22),
    // 118: either_attr = EITHER_ATTR
    Symbol::Leaf(26),
    // 119: either_attr = EITHER_ATTR_LOST_ATTR
    Symbol::Leaf(23),
    // 120: number_or_inside = 'int' INT ')'
    Symbol::Word(46),
    Symbol::Leaf(3),
    Symbol::Word(95),
    // 121: number_or_inside = ')'
    Symbol::Word(46),
    // 122: number_or_inside = '(' inside inside
    Symbol::Rule(52),
    Symbol::Rule(52),
    Symbol::Word(45),
    // 123: number_or_inside = most_words inside
    Symbol::Rule(52),
    Symbol::Rule(57),
    // 124: number_or_inside = plain inside
    Symbol::Rule(52),
    Symbol::Rule(55),
    // 125: range_attr = LOST_ATTR_RANGE_ATTR
    Symbol::Leaf(24),
    // 126: enum_attr = ENUM_ATTR_LOST_ATTR
    Symbol::Leaf(21),
    // 127: enum_attr = ENUM_ATTR
    Symbol::Leaf(27),
    // 128: parens = '(' inside
    Symbol::Rule(52),
    Symbol::Word(45),
    // 129: inside = ')'
    Symbol::Word(46),
    // 130: inside = '(' inside inside
    Symbol::Rule(52),
    Symbol::Rule(52),
    Symbol::Word(45),
    // 131: inside = any_word inside
    Symbol::Rule(52),
    Symbol::Rule(58),
    // 132: inside = plain inside
    Symbol::Rule(52),
    Symbol::Rule(55),
    // 133: node_parens = '(' node_inside
    Symbol::Rule(54),
    Symbol::Word(45),
    // 134: node_inside = ')'
    Symbol::Word(46),
    // 135: node_inside = '(' node_inside node_inside
    Symbol::Rule(54),
    Symbol::Rule(54),
    Symbol::Word(45),
    // 136: node_inside = node_word node_inside
    Symbol::Rule(54),
    Symbol::Rule(59),
    // 137: node_inside = plain node_inside
    Symbol::Rule(54),
    Symbol::Rule(55),
    // 138: node_inside = FLOAT node_inside
    Symbol::Rule(54),
    Symbol::Leaf(11),
    // 139: plain = INT
    Symbol::Leaf(3),
    // 140: plain = STR
    Symbol::Leaf(4),
    // 141: plain = CSTR
    Symbol::Leaf(5),
    // 142: plain = GLOBAL
    Symbol::Leaf(0),
    // 143: plain = LOCAL
    Symbol::Leaf(1),
    // 144: plain = LABEL
    Symbol::Leaf(2),
    // 145: plain = GROUP
    Symbol::Leaf(6),
    // 146: plain = RECORD
    Symbol::Leaf(7),
    // 147: plain = MDNUM
    Symbol::Leaf(8),
    // 148: plain = MDSTR
    Symbol::Leaf(10),
    // 149: plain = mdname
    Symbol::Rule(149),
    // 150: plain = mark
    Symbol::Rule(56),
    // 151: mark = '='
    Symbol::Word(43),
    // 152: mark = ','
    Symbol::Word(44),
    // 153: mark = '['
    Symbol::Word(47),
    // 154: mark = ']'
    Symbol::Word(48),
    // 155: mark = '{'
    Symbol::Word(49),
    // 156: mark = '}'
    Symbol::Word(50),
    // 157: mark = '<'
    Symbol::Word(51),
    // 158: mark = '>'
    Symbol::Word(52),
    // 159: mark = '!'
    Symbol::Word(53),
    // 160: mark = '|'
    Symbol::Word(54),
    // 161: mark = '...'
    Symbol::Word(55),
    // 162: most_words = @'addrspace'
    Symbol::Leaf(63),
    // 163: most_words = @'alias'
    Symbol::Leaf(64),
    // 164: most_words = @'align'
    Symbol::Leaf(65),
    // 165: most_words = @'alignstack'
    Symbol::Leaf(66),
    // 166: most_words = @'alloca'
    Symbol::Leaf(67),
    // 167: most_words = @'asm'
    Symbol::Leaf(68),
    // 168: most_words = @'atomic'
    Symbol::Leaf(69),
    // 169: most_words = @'atomicrmw'
    Symbol::Leaf(70),
    // 170: most_words = @'attributes'
    Symbol::Leaf(71),
    // 171: most_words = @'blockaddress'
    Symbol::Leaf(72),
    // 172: most_words = @'br'
    Symbol::Leaf(73),
    // 173: most_words = @'call'
    Symbol::Leaf(74),
    // 174: most_words = @'cmpxchg'
    Symbol::Leaf(75),
    // 175: most_words = @'dead_on_return'
    Symbol::Leaf(76),
    // 176: most_words = @'declare'
    Symbol::Leaf(77),
    // 177: most_words = @'define'
    Symbol::Leaf(78),
    // 178: most_words = @'denormal_fpenv'
    Symbol::Leaf(79),
    // 179: most_words = @'disjoint'
    Symbol::Leaf(80),
    // 180: most_words = @'distinct'
    Symbol::Leaf(81),
    // 181: most_words = @'elementtype'
    Symbol::Leaf(82),
    // 182: most_words = @'exact'
    Symbol::Leaf(83),
    // 183: most_words = @'extern_weak'
    Symbol::Leaf(84),
    // 184: most_words = @'external'
    Symbol::Leaf(85),
    // 185: most_words = @'extractelement'
    Symbol::Leaf(86),
    // 186: most_words = @'extractvalue'
    Symbol::Leaf(87),
    // 187: most_words = @'fence'
    Symbol::Leaf(88),
    // 188: most_words = @'freeze'
    Symbol::Leaf(89),
    // 189: most_words = @'getelementptr'
    Symbol::Leaf(90),
    // 190: most_words = @'icmp'
    Symbol::Leaf(91),
    // 191: most_words = @'indirectbr'
    Symbol::Leaf(92),
    // 192: most_words = @'inrange'
    Symbol::Leaf(93),
    // 193: most_words = @'insertvalue'
    Symbol::Leaf(94),
    // 194: most_words = @'label'
    Symbol::Leaf(96),
    // 195: most_words = @'load'
    Symbol::Leaf(97),
    // 196: most_words = @'nneg'
    Symbol::Leaf(98),
    // 197: most_words = @'nocapture'
    Symbol::Leaf(99),
    // 198: most_words = @'nsw'
    Symbol::Leaf(100),
    // 199: most_words = @'null'
    Symbol::Leaf(101),
    // 200: most_words = @'nuw'
    Symbol::Leaf(102),
    // 201: most_words = @'opaque'
    Symbol::Leaf(103),
    // 202: most_words = @'or'
    Symbol::Leaf(104),
    // 203: most_words = @'phi'
    Symbol::Leaf(105),
    // 204: most_words = @'ptr'
    Symbol::Leaf(106),
    // 205: most_words = @'ret'
    Symbol::Leaf(107),
    // 206: most_words = @'samesign'
    Symbol::Leaf(108),
    // 207: most_words = @'shufflevector'
    Symbol::Leaf(109),
    // 208: most_words = @'sideeffect'
    Symbol::Leaf(110),
    // 209: most_words = @'source_filename'
    Symbol::Leaf(111),
    // 210: most_words = @'splat'
    Symbol::Leaf(112),
    // 211: most_words = @'store'
    Symbol::Leaf(113),
    // 212: most_words = @'switch'
    Symbol::Leaf(114),
    // 213: most_words = @'syncscope'
    Symbol::Leaf(115),
    // 214: most_words = @'target'
    Symbol::Leaf(116),
    // 215: most_words = @'to'
    Symbol::Leaf(117),
    // 216: most_words = @'trunc'
    Symbol::Leaf(118),
    // 217: most_words = @'type'
    Symbol::Leaf(119),
    // 218: most_words = @'unreachable'
    Symbol::Leaf(120),
    // 219: most_words = @'uwtable'
    Symbol::Leaf(121),
    // 220: most_words = @'va_arg'
    Symbol::Leaf(122),
    // 221: most_words = @'void'
    Symbol::Leaf(123),
    // 222: most_words = @'volatile'
    Symbol::Leaf(124),
    // 223: most_words = @'vscale'
    Symbol::Leaf(125),
    // 224: most_words = @'weak'
    Symbol::Leaf(126),
    // 225: most_words = @'x'
    Symbol::Leaf(127),
    // 226: most_words = @'zext'
    Symbol::Leaf(128),
    // 227: most_words = INTTYPE
    Symbol::Leaf(12),
    // 228: most_words = WORD
    Symbol::Leaf(14),
    // 229: most_words = TARGET
    Symbol::Leaf(15),
    // 230: most_words = BODY_LINKAGE
    Symbol::Leaf(16),
    // 231: most_words = DATA_LINKAGE
    Symbol::Leaf(17),
    // 232: most_words = DSO
    Symbol::Leaf(18),
    // 233: most_words = UNNAMED
    Symbol::Leaf(19),
    // 234: most_words = STORAGE
    Symbol::Leaf(20),
    // 235: most_words = ENUM_ATTR_LOST_ATTR
    Symbol::Leaf(21),
    // 236: most_words = LOST_ATTR_NUMBER_ATTR
    Symbol::Leaf(22),
    // 237: most_words = EITHER_ATTR_LOST_ATTR
    Symbol::Leaf(23),
    // 238: most_words = LOST_ATTR_RANGE_ATTR
    Symbol::Leaf(24),
    // 239: most_words = UNWIND_NUMBER
    Symbol::Leaf(25),
    // 240: most_words = EITHER_ATTR
    Symbol::Leaf(26),
    // 241: most_words = ENUM_ATTR
    Symbol::Leaf(27),
    // 242: most_words = FLAT
    Symbol::Leaf(28),
    // 243: most_words = CONST
    Symbol::Leaf(29),
    // 244: most_words = CAST_CONST_CAST
    Symbol::Leaf(30),
    // 245: most_words = CONST_SUM_RMW_KIND_SUM
    Symbol::Leaf(31),
    // 246: most_words = SIMPLE
    Symbol::Leaf(32),
    // 247: most_words = SUM
    Symbol::Leaf(33),
    // 248: most_words = QUOTIENT
    Symbol::Leaf(34),
    // 249: most_words = BITS
    Symbol::Leaf(35),
    // 250: most_words = BITS_RMW_KIND
    Symbol::Leaf(36),
    // 251: most_words = PREDICATE
    Symbol::Leaf(37),
    // 252: most_words = CAST
    Symbol::Leaf(38),
    // 253: most_words = RMW_KIND
    Symbol::Leaf(39),
    // 254: most_words = ORDERING
    Symbol::Leaf(40),
    // 255: most_words = GEP_FLAG
    Symbol::Leaf(41),
    // 256: most_words = TAIL
    Symbol::Leaf(42),
    // 257: any_word = most_words
    Symbol::Rule(57),
    // 258: any_word = @'int'
    Symbol::Leaf(95),
    // 259: node_word = any_word
    Symbol::Rule(58),
    // 260: node_word = REFUSED
    Symbol::Leaf(13),
    // 261: type = 'void'
    Symbol::Word(123),
    // 262: type = INTTYPE
    Symbol::Leaf(12),
    // 263: type = 'ptr' space
    Symbol::Rule(16),
    Symbol::Word(106),
    // 264: type = FLAT
    Symbol::Leaf(28),
    // 265: type = '[' INT 'x' type ']'
    Symbol::Word(48),
    Symbol::Rule(60),
    Symbol::Word(127),
    Symbol::Leaf(3),
    Symbol::Word(47),
    // 266: type = '<' angle_type
    Symbol::Rule(63),
    Symbol::Word(51),
    // 267: type = LOCAL
    Symbol::Leaf(1),
    // 268: type = '{' types '}'
    Symbol::Word(50),
    Symbol::Rule(64),
    Symbol::Word(49),
    // 269: solid = INTTYPE
    Symbol::Leaf(12),
    // 270: solid = 'ptr' space
    Symbol::Rule(16),
    Symbol::Word(106),
    // 271: solid = FLAT
    Symbol::Leaf(28),
    // 272: solid = '[' INT 'x' type ']'
    Symbol::Word(48),
    Symbol::Rule(60),
    Symbol::Word(127),
    Symbol::Leaf(3),
    Symbol::Word(47),
    // 273: solid = '<' angle_type
    Symbol::Rule(63),
    Symbol::Word(51),
    // 274: solid = LOCAL
    Symbol::Leaf(1),
    // 275: solid = '{' types '}'
    Symbol::Word(50),
    Symbol::Rule(64),
    Symbol::Word(49),
    // 276: flat = INTTYPE
    Symbol::Leaf(12),
    // 277: flat = 'ptr' space
    Symbol::Rule(16),
    Symbol::Word(106),
    // 278: flat = FLAT
    Symbol::Leaf(28),
    // 279: flat = '[' INT 'x' type ']'
    Symbol::Word(48),
    Symbol::Rule(60),
    Symbol::Word(127),
    Symbol::Leaf(3),
    Symbol::Word(47),
    // 280: flat = '<' angle_type
    Symbol::Rule(63),
    Symbol::Word(51),
    // 281: flat = LOCAL
    Symbol::Leaf(1),
    // 282: angle_type = INT 'x' type '>'
    Symbol::Word(52),
    Symbol::Rule(60),
    Symbol::Word(127),
    Symbol::Leaf(3),
    // 283: angle_type = 'vscale' 'x' INT 'x' type '>'
    Symbol::Word(52),
    Symbol::Rule(60),
    Symbol::Word(127),
    Symbol::Leaf(3),
    Symbol::Word(127),
    Symbol::Word(125),
    // 284: angle_type = '{' types '}' '>'
    Symbol::Word(52),
    Symbol::Word(50),
    Symbol::Rule(64),
    Symbol::Word(49),
    // 285: types = type more_types
    Symbol::Rule(65),
    Symbol::Rule(60),
    // 286: types = nothing
    // 287: more_types = ',' type more_types
    Symbol::Rule(65),
    Symbol::Rule(60),
    Symbol::Word(44),
    // 288: more_types = nothing
    // 289: called_type = type signature
    Symbol::Rule(67),
    Symbol::Rule(60),
    // 290: signature = '(' argument_types ')'
    Symbol::Word(46),
    Symbol::Rule(68),
    Symbol::Word(45),
    // 291: signature = nothing
    // 292: argument_types = type more_argument_types
    Symbol::Rule(69),
    Symbol::Rule(60),
    // 293: argument_types = '...'
    Symbol::Word(55),
    // 294: argument_types = nothing
    // 295: more_argument_types = ',' type_or_dots
    Symbol::Rule(70),
    Symbol::Word(44),
    // 296: more_argument_types = nothing
    // 297: type_or_dots = type more_argument_types
    Symbol::Rule(69),
    Symbol::Rule(60),
    // 298: type_or_dots = '...'
    Symbol::Word(55),
    // 299: tconst = type const
    Symbol::Rule(72),
    Symbol::Rule(60),
    // 300: const = INT
    Symbol::Leaf(3),
    // 301: const = CONST
    Symbol::Leaf(29),
    // 302: const = 'null'
    Symbol::Word(101),
    // 303: const = '[' tconsts ']'
    Symbol::Word(48),
    Symbol::Rule(79),
    Symbol::Word(47),
    // 304: const = '{' tconsts '}'
    Symbol::Word(50),
    Symbol::Rule(79),
    Symbol::Word(49),
    // 305: const = '<' const_angle
    Symbol::Rule(73),
    Symbol::Word(51),
    // 306: const = CSTR
    Symbol::Leaf(5),
    // 307: const = 'splat' '(' tconst ')'
    Symbol::Word(46),
    Symbol::Rule(71),
    Symbol::Word(45),
    Symbol::Word(112),
    // 308: const = GLOBAL
    Symbol::Leaf(0),
    // 309: const = 'blockaddress' '(' GLOBAL ',' LOCAL ')'
    Symbol::Word(46),
    Symbol::Leaf(1),
    Symbol::Word(44),
    Symbol::Leaf(0),
    Symbol::Word(45),
    Symbol::Word(72),
    // 310: const = const_cast '(' tconst 'to' type ')'
    Symbol::Word(46),
    Symbol::Rule(60),
    Symbol::Word(117),
    Symbol::Rule(71),
    Symbol::Word(45),
    Symbol::Rule(77),
    // 311: const = const_sum lost_wraps '(' tconst ',' tconst ')'
    Symbol::Word(46),
    Symbol::Rule(71),
    Symbol::Word(44),
    Symbol::Rule(71),
    Symbol::Word(45),
    Symbol::Rule(95),
    Symbol::Rule(78),
    // 312: const = 'getelementptr' gep_flags in_range '(' type ',' tconst more_tconsts ')'
    Symbol::Word(46),
    Symbol::Rule(80),
    Symbol::Rule(71),
    Symbol::Word(44),
    Symbol::Rule(60),
    Symbol::Word(45),
    Symbol::Rule(81),
    Symbol::Rule(125),
    Symbol::Word(90),
    // 313: const_angle = '{' const_brace
    Symbol::Rule(74),
    Symbol::Word(49),
    // 314: const_angle = flat const more_tconsts '>'
    Symbol::Word(52),
    Symbol::Rule(80),
    Symbol::Rule(72),
    Symbol::Rule(62),
    // 315: const_angle = 'void' const more_tconsts '>'
    Symbol::Word(52),
    Symbol::Rule(80),
    Symbol::Rule(72),
    Symbol::Word(123),
    // 316: const_brace = '}' const_empty
    Symbol::Rule(75),
    Symbol::Word(50),
    // 317: const_brace = type const_braced
    Symbol::Rule(76),
    Symbol::Rule(60),
    // 318: const_empty = '>'
    Symbol::Word(52),
    // 319: const_empty = const more_tconsts '>'
    Symbol::Word(52),
    Symbol::Rule(80),
    Symbol::Rule(72),
    // 320: const_braced = const more_tconsts '}' '>'
    Symbol::Word(52),
    Symbol::Word(50),
    Symbol::Rule(80),
    Symbol::Rule(72),
    // 321: const_braced = more_types '}' const more_tconsts '>'
    Symbol::Word(52),
    Symbol::Rule(80),
    Symbol::Rule(72),
    Symbol::Word(50),
    Symbol::Rule(65),
    // 322: const_cast = CAST_CONST_CAST
    Symbol::Leaf(30),
    // 323: const_cast = 'trunc'
    Symbol::Word(118),
    // 324: const_sum = CONST_SUM_RMW_KIND_SUM
    Symbol::Leaf(31),
    // 325: tconsts = tconst more_tconsts
    Symbol::Rule(80),
    Symbol::Rule(71),
    // 326: tconsts = nothing
    // 327: more_tconsts = ',' tconst more_tconsts
    Symbol::Rule(80),
    Symbol::Rule(71),
    Symbol::Word(44),
    // 328: more_tconsts = nothing
    // 329: in_range = @'inrange' parens
    Symbol::Rule(51),
    Symbol::Leaf(93),
    // 330: in_range = nothing
    // 331: inst = simple attached
    Symbol::Rule(147),
    Symbol::Rule(83),
    // 332: inst = 'alloca' type alloca_tail
    Symbol::Rule(106),
    Symbol::Rule(60),
    Symbol::Word(67),
    // 333: inst = 'load' load
    Symbol::Rule(112),
    Symbol::Word(97),
    // 334: inst = 'store' store
    Symbol::Rule(114),
    Symbol::Word(113),
    // 335: inst = 'atomicrmw' rmw_kind address_and_value order lost_align_attached
    Symbol::Rule(136),
    Symbol::Rule(122),
    Symbol::Rule(118),
    Symbol::Rule(117),
    Symbol::Word(70),
    // 336: inst = 'cmpxchg' lost_weak exchange
    Symbol::Rule(120),
    Symbol::Rule(119),
    Symbol::Word(75),
    // 337: inst = 'getelementptr' gep_flags type ',' typed more_indices
    Symbol::Rule(127),
    Symbol::Rule(85),
    Symbol::Word(44),
    Symbol::Rule(60),
    Symbol::Rule(125),
    Symbol::Word(90),
    // 338: inst = 'extractvalue' typed ',' INT more_places
    Symbol::Rule(129),
    Symbol::Leaf(3),
    Symbol::Word(44),
    Symbol::Rule(85),
    Symbol::Word(87),
    // 339: inst = 'insertvalue' typed ',' typed ',' INT more_places
    Symbol::Rule(129),
    Symbol::Leaf(3),
    Symbol::Word(44),
    Symbol::Rule(85),
    Symbol::Word(44),
    Symbol::Rule(85),
    Symbol::Word(94),
    // 340: inst = 'phi' type entry more_entries
    Symbol::Rule(132),
    Symbol::Rule(131),
    Symbol::Rule(60),
    Symbol::Word(105),
    // 341: simple = 'ret' ret
    Symbol::Rule(87),
    Symbol::Word(107),
    // 342: simple = 'br' br
    Symbol::Rule(88),
    Symbol::Word(73),
    // 343: simple = 'switch' typed ',' 'label' LOCAL '[' cases ']'
    Symbol::Word(48),
    Symbol::Rule(89),
    Symbol::Word(47),
    Symbol::Leaf(1),
    Symbol::Word(96),
    Symbol::Word(44),
    Symbol::Rule(85),
    Symbol::Word(114),
    // 344: simple = 'indirectbr' typed ',' '[' labels ']'
    Symbol::Word(48),
    Symbol::Rule(90),
    Symbol::Word(47),
    Symbol::Word(44),
    Symbol::Rule(85),
    Symbol::Word(92),
    // 345: simple = 'unreachable'
    Symbol::Word(120),
    // 346: simple = CONST_SUM_RMW_KIND_SUM wraps pair
    Symbol::Rule(86),
    Symbol::Rule(93),
    Symbol::Leaf(31),
    // 347: simple = SUM wraps pair
    Symbol::Rule(86),
    Symbol::Rule(93),
    Symbol::Leaf(33),
    // 348: simple = QUOTIENT lost_exact pair
    Symbol::Rule(86),
    Symbol::Rule(99),
    Symbol::Leaf(34),
    // 349: simple = BITS pair
    Symbol::Rule(86),
    Symbol::Leaf(35),
    // 350: simple = BITS_RMW_KIND pair
    Symbol::Rule(86),
    Symbol::Leaf(36),
    // 351: simple = 'or' lost_disjoint pair
    Symbol::Rule(86),
    Symbol::Rule(101),
    Symbol::Word(104),
    // 352: simple = 'icmp' lost_samesign PREDICATE pair
    Symbol::Rule(86),
    Symbol::Leaf(37),
    Symbol::Rule(102),
    Symbol::Word(91),
    // 353: simple = CAST_CONST_CAST typed 'to' type
    Symbol::Rule(60),
    Symbol::Word(117),
    Symbol::Rule(85),
    Symbol::Leaf(30),
    // 354: simple = CAST typed 'to' type
    Symbol::Rule(60),
    Symbol::Word(117),
    Symbol::Rule(85),
    Symbol::Leaf(38),
    // 355: simple = 'trunc' lost_wraps typed 'to' type
    Symbol::Rule(60),
    Symbol::Word(117),
    Symbol::Rule(85),
    Symbol::Rule(95),
    Symbol::Word(118),
    // 356: simple = 'zext' nneg typed 'to' type
    Symbol::Rule(60),
    Symbol::Word(117),
    Symbol::Rule(85),
    Symbol::Rule(105),
    Symbol::Word(128),
    // 357: simple = 'fence' order
    Symbol::Rule(122),
    Symbol::Word(88),
    // 358: simple = 'extractelement' typed ',' typed
    Symbol::Rule(85),
    Symbol::Word(44),
    Symbol::Rule(85),
    Symbol::Word(86),
    // 359: simple = SIMPLE typed ',' typed ',' typed
    Symbol::Rule(85),
    Symbol::Word(44),
    Symbol::Rule(85),
    Symbol::Word(44),
    Symbol::Rule(85),
    Symbol::Leaf(32),
    // 360: simple = 'shufflevector' typed ',' typed ',' tconst
    Symbol::Rule(71),
    Symbol::Word(44),
    Symbol::Rule(85),
    Symbol::Word(44),
    Symbol::Rule(85),
    Symbol::Word(109),
    // 361: simple = 'freeze' typed
    Symbol::Rule(85),
    Symbol::Word(89),
    // 362: simple = 'va_arg' typed ',' type
    Symbol::Rule(60),
    Symbol::Word(44),
    Symbol::Rule(85),
    Symbol::Word(122),
    // 363: simple = tail 'call' call
    Symbol::Rule(139),
    Symbol::Word(74),
    Symbol::Rule(138),
    // 364: value = LOCAL
    Symbol::Leaf(1),
    // 365: value = INT
    Symbol::Leaf(3),
    // 366: value = CONST
    Symbol::Leaf(29),
    // 367: value = 'null'
    Symbol::Word(101),
    // 368: value = '[' tconsts ']'
    Symbol::Word(48),
    Symbol::Rule(79),
    Symbol::Word(47),
    // 369: value = '{' tconsts '}'
    Symbol::Word(50),
    Symbol::Rule(79),
    Symbol::Word(49),
    // 370: value = '<' const_angle
    Symbol::Rule(73),
    Symbol::Word(51),
    // 371: value = CSTR
    Symbol::Leaf(5),
    // 372: value = 'splat' '(' tconst ')'
    Symbol::Word(46),
    Symbol::Rule(71),
    Symbol::Word(45),
    Symbol::Word(112),
    // 373: value = GLOBAL
    Symbol::Leaf(0),
    // 374: value = 'blockaddress' '(' GLOBAL ',' LOCAL ')'
    Symbol::Word(46),
    Symbol::Leaf(1),
    Symbol::Word(44),
    Symbol::Leaf(0),
    Symbol::Word(45),
    Symbol::Word(72),
    // 375: value = const_cast '(' tconst 'to' type ')'
    Symbol::Word(46),
    Symbol::Rule(60),
    Symbol::Word(117),
    Symbol::Rule(71),
    Symbol::Word(45),
    Symbol::Rule(77),
    // 376: value = const_sum lost_wraps '(' tconst ',' tconst ')'
    Symbol::Word(46),
    Symbol::Rule(71),
    Symbol::Word(44),
    Symbol::Rule(71),
    Symbol::Word(45),
    Symbol::Rule(95),
    Symbol::Rule(78),
    // 377: value = 'getelementptr' gep_flags in_range '(' type ',' tconst more_tconsts ')'
    Symbol::Word(46),
    Symbol::Rule(80),
    Symbol::Rule(71),
    Symbol::Word(44),
    Symbol::Rule(60),
    Symbol::Word(45),
    Symbol::Rule(81),
    Symbol::Rule(125),
    Symbol::Word(90),
    // 378: typed = type value
    Symbol::Rule(84),
    Symbol::Rule(60),
    // 379: pair = type value ',' value
    Symbol::Rule(84),
    Symbol::Word(44),
    Symbol::Rule(84),
    Symbol::Rule(60),
    // 380: ret = 'void'
    Symbol::Word(123),
    // 381: ret = solid value
    Symbol::Rule(84),
    Symbol::Rule(61),
    // 382: br = 'label' LOCAL
    Symbol::Leaf(1),
    Symbol::Word(96),
    // 383: br = typed ',' 'label' LOCAL ',' 'label' LOCAL
    Symbol::Leaf(1),
    Symbol::Word(96),
    Symbol::Word(44),
    Symbol::Leaf(1),
    Symbol::Word(96),
    Symbol::Word(44),
    Symbol::Rule(85),
    // 384: cases = tconst ',' 'label' LOCAL cases
    Symbol::Rule(89),
    Symbol::Leaf(1),
    Symbol::Word(96),
    Symbol::Word(44),
    Symbol::Rule(71),
    // 385: cases = nothing
    // 386: labels = 'label' LOCAL more_labels
    Symbol::Rule(91),
    Symbol::Leaf(1),
    Symbol::Word(96),
    // 387: labels = nothing
    // 388: more_labels = ',' 'label' LOCAL more_labels
    Symbol::Rule(91),
    Symbol::Leaf(1),
    Symbol::Word(96),
    Symbol::Word(44),
    // 389: more_labels = nothing
    // 390: sum = CONST_SUM_RMW_KIND_SUM
    Symbol::Leaf(31),
    // 391: sum = SUM
    Symbol::Leaf(33),
    // 392: wraps = 'nuw' nsw
    Symbol::Rule(94),
    Symbol::Word(102),
    // 393: wraps = 'nsw'
    Symbol::Word(100),
    // 394: wraps = nothing
    // 395: nsw = 'nsw'
    Symbol::Word(100),
    // 396: nsw = nothing
    // 397: lost_wraps = @'nuw' lost_nsw
    Symbol::Rule(96),
    Symbol::Leaf(102),
    // 398: lost_wraps = @'nsw' lost_nuw
    Symbol::Rule(97),
    Symbol::Leaf(100),
    // 399: lost_wraps = nothing
    // 400: lost_nsw = @'nsw'
    Symbol::Leaf(100),
    // 401: lost_nsw = nothing
    // 402: lost_nuw = @'nuw'
    Symbol::Leaf(102),
    // 403: lost_nuw = nothing
    // 404: quotient = QUOTIENT
    Symbol::Leaf(34),
    // 405: lost_exact = @'exact'
    Symbol::Leaf(83),
    // 406: lost_exact = nothing
    // 407: bits = BITS
    Symbol::Leaf(35),
    // 408: bits = BITS_RMW_KIND
    Symbol::Leaf(36),
    // 409: lost_disjoint = @'disjoint'
    Symbol::Leaf(80),
    // 410: lost_disjoint = nothing
    // 411: lost_samesign = @'samesign'
    Symbol::Leaf(108),
    // 412: lost_samesign = nothing
    // 413: predicate = PREDICATE
    Symbol::Leaf(37),
    // 414: cast = CAST_CONST_CAST
    Symbol::Leaf(30),
    // 415: cast = CAST
    Symbol::Leaf(38),
    // 416: nneg = 'nneg'
    Symbol::Word(98),
    // 417: nneg = nothing
    // 418: alloca_tail = ',' alloca_part
    Symbol::Rule(107),
    Symbol::Word(44),
    // 419: alloca_tail = nothing
    // 420: alloca_part = typed alloca_rest
    Symbol::Rule(108),
    Symbol::Rule(85),
    // 421: alloca_part = 'align' INT alloca_end
    Symbol::Rule(110),
    Symbol::Leaf(3),
    Symbol::Word(65),
    // 422: alloca_part = 'addrspace' '(' INT ')' attached
    Symbol::Rule(147),
    Symbol::Word(46),
    Symbol::Leaf(3),
    Symbol::Word(45),
    Symbol::Word(63),
    // 423: alloca_part = mdname mdref attached
    Symbol::Rule(147),
    Symbol::Rule(150),
    Symbol::Rule(149),
    // 424: alloca_rest = ',' alloca_rest_part
    Symbol::Rule(109),
    Symbol::Word(44),
    // 425: alloca_rest = nothing
    // 426: alloca_rest_part = 'align' INT alloca_end
    Symbol::Rule(110),
    Symbol::Leaf(3),
    Symbol::Word(65),
    // 427: alloca_rest_part = 'addrspace' '(' INT ')' attached
    Symbol::Rule(147),
    Symbol::Word(46),
    Symbol::Leaf(3),
    Symbol::Word(45),
    Symbol::Word(63),
    // 428: alloca_rest_part = mdname mdref attached
    Symbol::Rule(147),
    Symbol::Rule(150),
    Symbol::Rule(149),
    // 429: alloca_end = ',' alloca_end_part
    Symbol::Rule(111),
    Symbol::Word(44),
    // 430: alloca_end = nothing
    // 431: alloca_end_part = 'addrspace' '(' INT ')' attached
    Symbol::Rule(147),
    Symbol::Word(46),
    Symbol::Leaf(3),
    Symbol::Word(45),
    Symbol::Word(63),
    // 432: alloca_end_part = mdname mdref attached
    Symbol::Rule(147),
    Symbol::Rule(150),
    Symbol::Rule(149),
    // 433: load = volatile type ',' typed align_attached
    Symbol::Rule(134),
    Symbol::Rule(85),
    Symbol::Word(44),
    Symbol::Rule(60),
    Symbol::Rule(116),
    // 434: load = 'atomic' atomic_load
    Symbol::Rule(113),
    Symbol::Word(69),
    // 435: atomic_load = type ',' typed order align_attached
    Symbol::Rule(134),
    Symbol::Rule(122),
    Symbol::Rule(85),
    Symbol::Word(44),
    Symbol::Rule(60),
    // 436: store = volatile typed ',' typed align_attached
    Symbol::Rule(134),
    Symbol::Rule(85),
    Symbol::Word(44),
    Symbol::Rule(85),
    Symbol::Rule(116),
    // 437: store = 'atomic' atomic_store
    Symbol::Rule(115),
    Symbol::Word(69),
    // 438: atomic_store = typed ',' typed order align_attached
    Symbol::Rule(134),
    Symbol::Rule(122),
    Symbol::Rule(85),
    Symbol::Word(44),
    Symbol::Rule(85),
    // 439: volatile = 'volatile'
    Symbol::Word(124),
    // 440: volatile = nothing
    // 441: rmw_kind = RMW_KIND
    Symbol::Leaf(39),
    // 442: rmw_kind = CONST_SUM_RMW_KIND_SUM
    Symbol::Leaf(31),
    // 443: rmw_kind = BITS_RMW_KIND
    Symbol::Leaf(36),
    // 444: rmw_kind = 'or'
    Symbol::Word(104),
    // 445: address_and_value = typed ',' typed
    Symbol::Rule(85),
    Symbol::Word(44),
    Symbol::Rule(85),
    // 446: lost_weak = @'weak'
    Symbol::Leaf(126),
    // 447: lost_weak = nothing
    // 448: exchange = typed ',' address_and_value exchange_order lost_align_attached
    Symbol::Rule(136),
    Symbol::Rule(121),
    Symbol::Rule(118),
    Symbol::Word(44),
    Symbol::Rule(85),
    // 449: exchange_order = scope ordering ordering
    Symbol::Rule(124),
    Symbol::Rule(124),
    Symbol::Rule(123),
    // 450: order = scope ordering
    Symbol::Rule(124),
    Symbol::Rule(123),
    // 451: scope = 'syncscope' '(' STR ')'
    Symbol::Word(46),
    Symbol::Leaf(4),
    Symbol::Word(45),
    Symbol::Word(115),
    // 452: scope = nothing
    // 453: ordering = ORDERING
    Symbol::Leaf(40),
    // 454: gep_flags = gep_flag gep_flags
    Symbol::Rule(125),
    Symbol::Rule(126),
    // 455: gep_flags = nothing
    // 456: gep_flag = GEP_FLAG
    Symbol::Leaf(41),
    // 457: gep_flag = 'nuw'
    Symbol::Word(102),
    // 458: more_indices = ',' index_or_node
    Symbol::Rule(128),
    Symbol::Word(44),
    // 459: more_indices = nothing
    // 460: index_or_node = typed more_indices
    Symbol::Rule(127),
    Symbol::Rule(85),
    // 461: index_or_node = mdname mdref attached
    Symbol::Rule(147),
    Symbol::Rule(150),
    Symbol::Rule(149),
    // 462: more_places = ',' place_or_node
    Symbol::Rule(130),
    Symbol::Word(44),
    // 463: more_places = nothing
    // 464: place_or_node = INT more_places
    Symbol::Rule(129),
    Symbol::Leaf(3),
    // 465: place_or_node = mdname mdref attached
    Symbol::Rule(147),
    Symbol::Rule(150),
    Symbol::Rule(149),
    // 466: entry = '[' value ',' LOCAL ']'
    Symbol::Word(48),
    Symbol::Leaf(1),
    Symbol::Word(44),
    Symbol::Rule(84),
    Symbol::Word(47),
    // 467: more_entries = ',' entry_or_node
    Symbol::Rule(133),
    Symbol::Word(44),
    // 468: more_entries = nothing
    // 469: entry_or_node = entry more_entries
    Symbol::Rule(132),
    Symbol::Rule(131),
    // 470: entry_or_node = mdname mdref attached
    Symbol::Rule(147),
    Symbol::Rule(150),
    Symbol::Rule(149),
    // 471: align_attached = ',' align_or_attached
    Symbol::Rule(135),
    Symbol::Word(44),
    // 472: align_attached = nothing
    // 473: align_or_attached = 'align' INT attached
    Symbol::Rule(147),
    Symbol::Leaf(3),
    Symbol::Word(65),
    // 474: align_or_attached = mdname mdref attached
    Symbol::Rule(147),
    Symbol::Rule(150),
    Symbol::Rule(149),
    // 475: lost_align_attached = ',' lost_align_or_attached
    Symbol::Rule(137),
    Symbol::Word(44),
    // 476: lost_align_attached = nothing
    // 477: lost_align_or_attached = @'align' INT attached
    Symbol::Rule(147),
    Symbol::Leaf(3),
    Symbol::Leaf(65),
    // 478: lost_align_or_attached = mdname mdref attached
    Symbol::Rule(147),
    Symbol::Rule(150),
    Symbol::Rule(149),
    // 479: tail = TAIL
    Symbol::Leaf(42),
    // 480: tail = nothing
    // 481: call = lost_attrs called_type callee arguments call_attrs
    Symbol::Rule(38),
    Symbol::Rule(143),
    Symbol::Rule(140),
    Symbol::Rule(66),
    Symbol::Rule(32),
    // 482: callee = GLOBAL
    Symbol::Leaf(0),
    // 483: callee = LOCAL
    Symbol::Leaf(1),
    // 484: callee = 'asm' asm
    Symbol::Rule(141),
    Symbol::Word(68),
    // 485: asm = 'sideeffect' asm_text
    Symbol::Rule(142),
    Symbol::Word(110),
    // 486: asm = asm_text
    Symbol::Rule(142),
    // 487: asm_text = STR ',' STR
    Symbol::Leaf(4),
    Symbol::Word(44),
    Symbol::Leaf(4),
    // 488: arguments = '(' args ')'
    Symbol::Word(46),
    Symbol::Rule(144),
    Symbol::Word(45),
    // 489: args = arg more_args
    Symbol::Rule(145),
    Symbol::Rule(146),
    // 490: args = nothing
    // 491: more_args = ',' arg more_args
    Symbol::Rule(145),
    Symbol::Rule(146),
    Symbol::Word(44),
    // 492: more_args = nothing
    // 493: arg = type lost_attrs value
    Symbol::Rule(84),
    Symbol::Rule(32),
    Symbol::Rule(60),
    // 494: attached = ',' mdname mdref attached
    Symbol::Rule(147),
    Symbol::Rule(150),
    Symbol::Rule(149),
    Symbol::Word(44),
    // 495: attached = nothing
    // 496: attachments = mdname mdref attachments
    Symbol::Rule(148),
    Symbol::Rule(150),
    Symbol::Rule(149),
    // 497: attachments = nothing
    // 498: mdname = MDNAME
    Symbol::Leaf(9),
    // 499: mdname = @'!DICompileUnit'
    Symbol::Leaf(56),
    // 500: mdname = @'!DIFile'
    Symbol::Leaf(57),
    // 501: mdname = @'!DISubprogram'
    Symbol::Leaf(61),
    // 502: mdname = @'!DISubroutineType'
    Symbol::Leaf(62),
    // 503: mdname = @'!DILexicalBlock'
    Symbol::Leaf(58),
    // 504: mdname = @'!DILexicalBlockFile'
    Symbol::Leaf(59),
    // 505: mdname = @'!DILocation'
    Symbol::Leaf(60),
    // 506: mdref = MDNUM
    Symbol::Leaf(8),
    // 507: mdref = node
    Symbol::Rule(153),
    // 508: mdrefs = mdref more_mdrefs
    Symbol::Rule(152),
    Symbol::Rule(150),
    // 509: mdrefs = nothing
    // 510: more_mdrefs = ',' mdref more_mdrefs
    Symbol::Rule(152),
    Symbol::Rule(150),
    Symbol::Word(44),
    // 511: more_mdrefs = nothing
    // 512: node = '!' '{' mdops '}'
    Symbol::Word(50),
    Symbol::Rule(155),
    Symbol::Word(49),
    Symbol::Word(53),
    // 513: node = debug_node '(' fields ')'
    Symbol::Word(46),
    Symbol::Rule(158),
    Symbol::Word(45),
    Symbol::Rule(154),
    // 514: node = MDNAME node_parens
    Symbol::Rule(53),
    Symbol::Leaf(9),
    // 515: debug_node = '!DICompileUnit'
    Symbol::Word(56),
    // 516: debug_node = '!DIFile'
    Symbol::Word(57),
    // 517: debug_node = '!DISubprogram'
    Symbol::Word(61),
    // 518: debug_node = '!DISubroutineType'
    Symbol::Word(62),
    // 519: debug_node = '!DILexicalBlock'
    Symbol::Word(58),
    // 520: debug_node = '!DILexicalBlockFile'
    Symbol::Word(59),
    // 521: debug_node = '!DILocation'
    Symbol::Word(60),
    // 522: mdops = mdop more_mdops
    Symbol::Rule(156),
    Symbol::Rule(157),
    // 523: mdops = nothing
    // 524: more_mdops = ',' mdop more_mdops
    Symbol::Rule(156),
    Symbol::Rule(157),
    Symbol::Word(44),
    // 525: more_mdops = nothing
    // 526: mdop = 'null'
    Symbol::Word(101),
    // 527: mdop = MDSTR
    Symbol::Leaf(10),
    // 528: mdop = mdref
    Symbol::Rule(150),
    // 529: mdop = tconst
    Symbol::Rule(71),
    // 530: fields = field more_fields
    Symbol::Rule(159),
    Symbol::Rule(160),
    // 531: fields = nothing
    // 532: more_fields = ',' field more_fields
    Symbol::Rule(159),
    Symbol::Rule(160),
    Symbol::Word(44),
    // 533: more_fields = nothing
    // 534: field = LABEL field_value
    Symbol::Rule(161),
    Symbol::Leaf(2),
    // 535: field_value = INT
    Symbol::Leaf(3),
    // 536: field_value = STR
    Symbol::Leaf(4),
    // 537: field_value = node_word more_words
    Symbol::Rule(162),
    Symbol::Rule(59),
    // 538: field_value = mdref
    Symbol::Rule(150),
    // 539: more_words = '|' node_word more_words
    Symbol::Rule(162),
    Symbol::Rule(59),
    Symbol::Word(54),
    // 540: more_words = nothing
];

/// The alternatives of all rules.
pub static ALTERNATIVES: [Alternative; 540] = [
    // file
    Alternative {
        start: 0,
        end: 2,
        first: 0,
        first_end: 16,
    },
    Alternative {
        start: 2,
        end: 2,
        first: 16,
        first_end: 16,
    },
    // item
    Alternative {
        start: 2,
        end: 5,
        first: 16,
        first_end: 17,
    },
    Alternative {
        start: 5,
        end: 9,
        first: 17,
        first_end: 18,
    },
    Alternative {
        start: 9,
        end: 13,
        first: 18,
        first_end: 19,
    },
    Alternative {
        start: 13,
        end: 16,
        first: 19,
        first_end: 20,
    },
    Alternative {
        start: 16,
        end: 21,
        first: 20,
        first_end: 21,
    },
    Alternative {
        start: 21,
        end: 29,
        first: 21,
        first_end: 22,
    },
    Alternative {
        start: 29,
        end: 35,
        first: 22,
        first_end: 23,
    },
    Alternative {
        start: 35,
        end: 41,
        first: 23,
        first_end: 31,
    },
    Alternative {
        start: 41,
        end: 45,
        first: 31,
        first_end: 32,
    },
    // target
    Alternative {
        start: 45,
        end: 46,
        first: 32,
        first_end: 33,
    },
    // distinct
    Alternative {
        start: 46,
        end: 47,
        first: 33,
        first_end: 34,
    },
    Alternative {
        start: 47,
        end: 47,
        first: 34,
        first_end: 34,
    },
    // type_body
    Alternative {
        start: 47,
        end: 48,
        first: 34,
        first_end: 35,
    },
    Alternative {
        start: 48,
        end: 51,
        first: 35,
        first_end: 36,
    },
    Alternative {
        start: 51,
        end: 56,
        first: 36,
        first_end: 37,
    },
    // body_linkage
    Alternative {
        start: 56,
        end: 57,
        first: 37,
        first_end: 38,
    },
    Alternative {
        start: 57,
        end: 58,
        first: 38,
        first_end: 39,
    },
    // data_linkage
    Alternative {
        start: 58,
        end: 59,
        first: 39,
        first_end: 41,
    },
    Alternative {
        start: 59,
        end: 60,
        first: 41,
        first_end: 42,
    },
    // outer_linkage
    Alternative {
        start: 60,
        end: 61,
        first: 42,
        first_end: 43,
    },
    Alternative {
        start: 61,
        end: 62,
        first: 43,
        first_end: 44,
    },
    // define_linkage
    Alternative {
        start: 62,
        end: 63,
        first: 44,
        first_end: 46,
    },
    Alternative {
        start: 63,
        end: 64,
        first: 46,
        first_end: 47,
    },
    Alternative {
        start: 64,
        end: 64,
        first: 47,
        first_end: 47,
    },
    // declare_linkage
    Alternative {
        start: 64,
        end: 65,
        first: 47,
        first_end: 49,
    },
    Alternative {
        start: 65,
        end: 65,
        first: 49,
        first_end: 49,
    },
    // dso
    Alternative {
        start: 65,
        end: 66,
        first: 49,
        first_end: 50,
    },
    Alternative {
        start: 66,
        end: 66,
        first: 50,
        first_end: 50,
    },
    // unnamed
    Alternative {
        start: 66,
        end: 67,
        first: 50,
        first_end: 51,
    },
    Alternative {
        start: 67,
        end: 67,
        first: 51,
        first_end: 51,
    },
    // symbol
    Alternative {
        start: 67,
        end: 71,
        first: 51,
        first_end: 53,
    },
    Alternative {
        start: 71,
        end: 75,
        first: 53,
        first_end: 56,
    },
    Alternative {
        start: 75,
        end: 78,
        first: 56,
        first_end: 61,
    },
    // outer_symbol
    Alternative {
        start: 78,
        end: 82,
        first: 61,
        first_end: 63,
    },
    Alternative {
        start: 82,
        end: 84,
        first: 63,
        first_end: 64,
    },
    // inner_symbol
    Alternative {
        start: 84,
        end: 88,
        first: 64,
        first_end: 66,
    },
    Alternative {
        start: 88,
        end: 90,
        first: 66,
        first_end: 67,
    },
    // storage
    Alternative {
        start: 90,
        end: 91,
        first: 67,
        first_end: 68,
    },
    // space
    Alternative {
        start: 91,
        end: 95,
        first: 68,
        first_end: 69,
    },
    Alternative {
        start: 95,
        end: 95,
        first: 69,
        first_end: 69,
    },
    // variable_tail
    Alternative {
        start: 95,
        end: 97,
        first: 69,
        first_end: 70,
    },
    Alternative {
        start: 97,
        end: 98,
        first: 70,
        first_end: 71,
    },
    // align_or_node
    Alternative {
        start: 98,
        end: 102,
        first: 71,
        first_end: 72,
    },
    Alternative {
        start: 102,
        end: 106,
        first: 72,
        first_end: 80,
    },
    // lost_groups
    Alternative {
        start: 106,
        end: 108,
        first: 80,
        first_end: 81,
    },
    Alternative {
        start: 108,
        end: 108,
        first: 81,
        first_end: 81,
    },
    // alias
    Alternative {
        start: 108,
        end: 111,
        first: 81,
        first_end: 89,
    },
    // head
    Alternative {
        start: 111,
        end: 116,
        first: 89,
        first_end: 107,
    },
    // parameters
    Alternative {
        start: 116,
        end: 121,
        first: 107,
        first_end: 108,
    },
    // params
    Alternative {
        start: 121,
        end: 123,
        first: 108,
        first_end: 116,
    },
    Alternative {
        start: 123,
        end: 124,
        first: 116,
        first_end: 117,
    },
    Alternative {
        start: 124,
        end: 124,
        first: 117,
        first_end: 117,
    },
    // more_params
    Alternative {
        start: 124,
        end: 126,
        first: 117,
        first_end: 118,
    },
    Alternative {
        start: 126,
        end: 126,
        first: 118,
        first_end: 118,
    },
    // param_or_dots
    Alternative {
        start: 126,
        end: 128,
        first: 118,
        first_end: 126,
    },
    Alternative {
        start: 128,
        end: 129,
        first: 126,
        first_end: 127,
    },
    // param
    Alternative {
        start: 129,
        end: 132,
        first: 127,
        first_end: 135,
    },
    // name
    Alternative {
        start: 132,
        end: 133,
        first: 135,
        first_end: 136,
    },
    Alternative {
        start: 133,
        end: 133,
        first: 136,
        first_end: 136,
    },
    // body
    Alternative {
        start: 133,
        end: 135,
        first: 136,
        first_end: 172,
    },
    // body_parts
    Alternative {
        start: 135,
        end: 137,
        first: 172,
        first_end: 208,
    },
    Alternative {
        start: 137,
        end: 137,
        first: 208,
        first_end: 208,
    },
    // body_part
    Alternative {
        start: 137,
        end: 138,
        first: 208,
        first_end: 209,
    },
    Alternative {
        start: 138,
        end: 141,
        first: 209,
        first_end: 210,
    },
    Alternative {
        start: 141,
        end: 144,
        first: 210,
        first_end: 211,
    },
    Alternative {
        start: 144,
        end: 145,
        first: 211,
        first_end: 244,
    },
    // line
    Alternative {
        start: 145,
        end: 148,
        first: 244,
        first_end: 245,
    },
    Alternative {
        start: 148,
        end: 151,
        first: 245,
        first_end: 246,
    },
    Alternative {
        start: 151,
        end: 152,
        first: 246,
        first_end: 279,
    },
    // lost_attrs
    Alternative {
        start: 152,
        end: 154,
        first: 279,
        first_end: 288,
    },
    Alternative {
        start: 154,
        end: 154,
        first: 288,
        first_end: 288,
    },
    // lost_attr
    Alternative {
        start: 154,
        end: 155,
        first: 288,
        first_end: 289,
    },
    Alternative {
        start: 155,
        end: 156,
        first: 289,
        first_end: 290,
    },
    Alternative {
        start: 156,
        end: 157,
        first: 290,
        first_end: 291,
    },
    Alternative {
        start: 157,
        end: 159,
        first: 291,
        first_end: 292,
    },
    Alternative {
        start: 159,
        end: 163,
        first: 292,
        first_end: 293,
    },
    Alternative {
        start: 163,
        end: 165,
        first: 293,
        first_end: 294,
    },
    Alternative {
        start: 165,
        end: 167,
        first: 294,
        first_end: 295,
    },
    Alternative {
        start: 167,
        end: 171,
        first: 295,
        first_end: 296,
    },
    Alternative {
        start: 171,
        end: 173,
        first: 296,
        first_end: 297,
    },
    // text_value
    Alternative {
        start: 173,
        end: 175,
        first: 297,
        first_end: 298,
    },
    Alternative {
        start: 175,
        end: 175,
        first: 298,
        first_end: 298,
    },
    // function_attrs
    Alternative {
        start: 175,
        end: 177,
        first: 298,
        first_end: 312,
    },
    Alternative {
        start: 177,
        end: 177,
        first: 312,
        first_end: 312,
    },
    // function_attr
    Alternative {
        start: 177,
        end: 178,
        first: 312,
        first_end: 313,
    },
    Alternative {
        start: 178,
        end: 179,
        first: 313,
        first_end: 325,
    },
    Alternative {
        start: 179,
        end: 181,
        first: 325,
        first_end: 326,
    },
    // align_value
    Alternative {
        start: 181,
        end: 182,
        first: 326,
        first_end: 327,
    },
    Alternative {
        start: 182,
        end: 186,
        first: 327,
        first_end: 328,
    },
    // call_attrs
    Alternative {
        start: 186,
        end: 188,
        first: 328,
        first_end: 329,
    },
    Alternative {
        start: 188,
        end: 190,
        first: 329,
        first_end: 342,
    },
    Alternative {
        start: 190,
        end: 190,
        first: 342,
        first_end: 342,
    },
    // group_attrs
    Alternative {
        start: 190,
        end: 192,
        first: 342,
        first_end: 355,
    },
    Alternative {
        start: 192,
        end: 192,
        first: 355,
        first_end: 355,
    },
    // group_attr
    Alternative {
        start: 192,
        end: 193,
        first: 355,
        first_end: 367,
    },
    Alternative {
        start: 193,
        end: 198,
        first: 367,
        first_end: 368,
    },
    // attr
    Alternative {
        start: 198,
        end: 200,
        first: 368,
        first_end: 369,
    },
    Alternative {
        start: 200,
        end: 201,
        first: 369,
        first_end: 371,
    },
    Alternative {
        start: 201,
        end: 203,
        first: 371,
        first_end: 372,
    },
    Alternative {
        start: 203,
        end: 205,
        first: 372,
        first_end: 373,
    },
    Alternative {
        start: 205,
        end: 210,
        first: 373,
        first_end: 376,
    },
    Alternative {
        start: 210,
        end: 213,
        first: 376,
        first_end: 378,
    },
    Alternative {
        start: 213,
        end: 215,
        first: 378,
        first_end: 379,
    },
    Alternative {
        start: 215,
        end: 219,
        first: 379,
        first_end: 380,
    },
    // stack_value
    Alternative {
        start: 219,
        end: 222,
        first: 380,
        first_end: 381,
    },
    Alternative {
        start: 222,
        end: 224,
        first: 381,
        first_end: 382,
    },
    // stack_number
    Alternative {
        start: 224,
        end: 225,
        first: 382,
        first_end: 383,
    },
    Alternative {
        start: 225,
        end: 227,
        first: 383,
        first_end: 384,
    },
    // unwind_value
    Alternative {
        start: 227,
        end: 230,
        first: 384,
        first_end: 385,
    },
    Alternative {
        start: 230,
        end: 230,
        first: 385,
        first_end: 385,
    },
    // unwind_number
    Alternative {
        start: 230,
        end: 231,
        first: 385,
        first_end: 386,
    },
    Alternative {
        start: 231,
        end: 233,
        first: 386,
        first_end: 387,
    },
    // number_attr
    Alternative {
        start: 233,
        end: 234,
        first: 387,
        first_end: 388,
    },
    Alternative {
        start: 234,
        end: 235,
        first: 388,
        first_end: 389,
    },
    Alternative {
        start: 235,
        end: 236,
        first: 389,
        first_end: 390,
    },
    // either_attr
    Alternative {
        start: 236,
        end: 237,
        first: 390,
        first_end: 391,
    },
    Alternative {
        start: 237,
        end: 238,
        first: 391,
        first_end: 392,
    },
    // number_or_inside
    Alternative {
        start: 238,
        end: 241,
        first: 392,
        first_end: 393,
    },
    Alternative {
        start: 241,
        end: 242,
        first: 393,
        first_end: 394,
    },
    Alternative {
        start: 242,
        end: 245,
        first: 394,
        first_end: 395,
    },
    Alternative {
        start: 245,
        end: 247,
        first: 395,
        first_end: 490,
    },
    Alternative {
        start: 247,
        end: 249,
        first: 490,
        first_end: 519,
    },
    // range_attr
    Alternative {
        start: 249,
        end: 250,
        first: 519,
        first_end: 520,
    },
    // enum_attr
    Alternative {
        start: 250,
        end: 251,
        first: 520,
        first_end: 521,
    },
    Alternative {
        start: 251,
        end: 252,
        first: 521,
        first_end: 522,
    },
    // parens
    Alternative {
        start: 252,
        end: 254,
        first: 522,
        first_end: 523,
    },
    // inside
    Alternative {
        start: 254,
        end: 255,
        first: 523,
        first_end: 524,
    },
    Alternative {
        start: 255,
        end: 258,
        first: 524,
        first_end: 525,
    },
    Alternative {
        start: 258,
        end: 260,
        first: 525,
        first_end: 621,
    },
    Alternative {
        start: 260,
        end: 262,
        first: 621,
        first_end: 650,
    },
    // node_parens
    Alternative {
        start: 262,
        end: 264,
        first: 650,
        first_end: 651,
    },
    // node_inside
    Alternative {
        start: 264,
        end: 265,
        first: 651,
        first_end: 652,
    },
    Alternative {
        start: 265,
        end: 268,
        first: 652,
        first_end: 653,
    },
    Alternative {
        start: 268,
        end: 270,
        first: 653,
        first_end: 750,
    },
    Alternative {
        start: 270,
        end: 272,
        first: 750,
        first_end: 779,
    },
    Alternative {
        start: 272,
        end: 274,
        first: 779,
        first_end: 780,
    },
    // plain
    Alternative {
        start: 274,
        end: 275,
        first: 780,
        first_end: 781,
    },
    Alternative {
        start: 275,
        end: 276,
        first: 781,
        first_end: 782,
    },
    Alternative {
        start: 276,
        end: 277,
        first: 782,
        first_end: 783,
    },
    Alternative {
        start: 277,
        end: 278,
        first: 783,
        first_end: 784,
    },
    Alternative {
        start: 278,
        end: 279,
        first: 784,
        first_end: 785,
    },
    Alternative {
        start: 279,
        end: 280,
        first: 785,
        first_end: 786,
    },
    Alternative {
        start: 280,
        end: 281,
        first: 786,
        first_end: 787,
    },
    Alternative {
        start: 281,
        end: 282,
        first: 787,
        first_end: 788,
    },
    Alternative {
        start: 282,
        end: 283,
        first: 788,
        first_end: 789,
    },
    Alternative {
        start: 283,
        end: 284,
        first: 789,
        first_end: 790,
    },
    Alternative {
        start: 284,
        end: 285,
        first: 790,
        first_end: 798,
    },
    Alternative {
        start: 285,
        end: 286,
        first: 798,
        first_end: 809,
    },
    // mark
    Alternative {
        start: 286,
        end: 287,
        first: 809,
        first_end: 810,
    },
    Alternative {
        start: 287,
        end: 288,
        first: 810,
        first_end: 811,
    },
    Alternative {
        start: 288,
        end: 289,
        first: 811,
        first_end: 812,
    },
    Alternative {
        start: 289,
        end: 290,
        first: 812,
        first_end: 813,
    },
    Alternative {
        start: 290,
        end: 291,
        first: 813,
        first_end: 814,
    },
    Alternative {
        start: 291,
        end: 292,
        first: 814,
        first_end: 815,
    },
    Alternative {
        start: 292,
        end: 293,
        first: 815,
        first_end: 816,
    },
    Alternative {
        start: 293,
        end: 294,
        first: 816,
        first_end: 817,
    },
    Alternative {
        start: 294,
        end: 295,
        first: 817,
        first_end: 818,
    },
    Alternative {
        start: 295,
        end: 296,
        first: 818,
        first_end: 819,
    },
    Alternative {
        start: 296,
        end: 297,
        first: 819,
        first_end: 820,
    },
    // most_words
    Alternative {
        start: 297,
        end: 298,
        first: 820,
        first_end: 821,
    },
    Alternative {
        start: 298,
        end: 299,
        first: 821,
        first_end: 822,
    },
    Alternative {
        start: 299,
        end: 300,
        first: 822,
        first_end: 823,
    },
    Alternative {
        start: 300,
        end: 301,
        first: 823,
        first_end: 824,
    },
    Alternative {
        start: 301,
        end: 302,
        first: 824,
        first_end: 825,
    },
    Alternative {
        start: 302,
        end: 303,
        first: 825,
        first_end: 826,
    },
    Alternative {
        start: 303,
        end: 304,
        first: 826,
        first_end: 827,
    },
    Alternative {
        start: 304,
        end: 305,
        first: 827,
        first_end: 828,
    },
    Alternative {
        start: 305,
        end: 306,
        first: 828,
        first_end: 829,
    },
    Alternative {
        start: 306,
        end: 307,
        first: 829,
        first_end: 830,
    },
    Alternative {
        start: 307,
        end: 308,
        first: 830,
        first_end: 831,
    },
    Alternative {
        start: 308,
        end: 309,
        first: 831,
        first_end: 832,
    },
    Alternative {
        start: 309,
        end: 310,
        first: 832,
        first_end: 833,
    },
    Alternative {
        start: 310,
        end: 311,
        first: 833,
        first_end: 834,
    },
    Alternative {
        start: 311,
        end: 312,
        first: 834,
        first_end: 835,
    },
    Alternative {
        start: 312,
        end: 313,
        first: 835,
        first_end: 836,
    },
    Alternative {
        start: 313,
        end: 314,
        first: 836,
        first_end: 837,
    },
    Alternative {
        start: 314,
        end: 315,
        first: 837,
        first_end: 838,
    },
    Alternative {
        start: 315,
        end: 316,
        first: 838,
        first_end: 839,
    },
    Alternative {
        start: 316,
        end: 317,
        first: 839,
        first_end: 840,
    },
    Alternative {
        start: 317,
        end: 318,
        first: 840,
        first_end: 841,
    },
    Alternative {
        start: 318,
        end: 319,
        first: 841,
        first_end: 842,
    },
    Alternative {
        start: 319,
        end: 320,
        first: 842,
        first_end: 843,
    },
    Alternative {
        start: 320,
        end: 321,
        first: 843,
        first_end: 844,
    },
    Alternative {
        start: 321,
        end: 322,
        first: 844,
        first_end: 845,
    },
    Alternative {
        start: 322,
        end: 323,
        first: 845,
        first_end: 846,
    },
    Alternative {
        start: 323,
        end: 324,
        first: 846,
        first_end: 847,
    },
    Alternative {
        start: 324,
        end: 325,
        first: 847,
        first_end: 848,
    },
    Alternative {
        start: 325,
        end: 326,
        first: 848,
        first_end: 849,
    },
    Alternative {
        start: 326,
        end: 327,
        first: 849,
        first_end: 850,
    },
    Alternative {
        start: 327,
        end: 328,
        first: 850,
        first_end: 851,
    },
    Alternative {
        start: 328,
        end: 329,
        first: 851,
        first_end: 852,
    },
    Alternative {
        start: 329,
        end: 330,
        first: 852,
        first_end: 853,
    },
    Alternative {
        start: 330,
        end: 331,
        first: 853,
        first_end: 854,
    },
    Alternative {
        start: 331,
        end: 332,
        first: 854,
        first_end: 855,
    },
    Alternative {
        start: 332,
        end: 333,
        first: 855,
        first_end: 856,
    },
    Alternative {
        start: 333,
        end: 334,
        first: 856,
        first_end: 857,
    },
    Alternative {
        start: 334,
        end: 335,
        first: 857,
        first_end: 858,
    },
    Alternative {
        start: 335,
        end: 336,
        first: 858,
        first_end: 859,
    },
    Alternative {
        start: 336,
        end: 337,
        first: 859,
        first_end: 860,
    },
    Alternative {
        start: 337,
        end: 338,
        first: 860,
        first_end: 861,
    },
    Alternative {
        start: 338,
        end: 339,
        first: 861,
        first_end: 862,
    },
    Alternative {
        start: 339,
        end: 340,
        first: 862,
        first_end: 863,
    },
    Alternative {
        start: 340,
        end: 341,
        first: 863,
        first_end: 864,
    },
    Alternative {
        start: 341,
        end: 342,
        first: 864,
        first_end: 865,
    },
    Alternative {
        start: 342,
        end: 343,
        first: 865,
        first_end: 866,
    },
    Alternative {
        start: 343,
        end: 344,
        first: 866,
        first_end: 867,
    },
    Alternative {
        start: 344,
        end: 345,
        first: 867,
        first_end: 868,
    },
    Alternative {
        start: 345,
        end: 346,
        first: 868,
        first_end: 869,
    },
    Alternative {
        start: 346,
        end: 347,
        first: 869,
        first_end: 870,
    },
    Alternative {
        start: 347,
        end: 348,
        first: 870,
        first_end: 871,
    },
    Alternative {
        start: 348,
        end: 349,
        first: 871,
        first_end: 872,
    },
    Alternative {
        start: 349,
        end: 350,
        first: 872,
        first_end: 873,
    },
    Alternative {
        start: 350,
        end: 351,
        first: 873,
        first_end: 874,
    },
    Alternative {
        start: 351,
        end: 352,
        first: 874,
        first_end: 875,
    },
    Alternative {
        start: 352,
        end: 353,
        first: 875,
        first_end: 876,
    },
    Alternative {
        start: 353,
        end: 354,
        first: 876,
        first_end: 877,
    },
    Alternative {
        start: 354,
        end: 355,
        first: 877,
        first_end: 878,
    },
    Alternative {
        start: 355,
        end: 356,
        first: 878,
        first_end: 879,
    },
    Alternative {
        start: 356,
        end: 357,
        first: 879,
        first_end: 880,
    },
    Alternative {
        start: 357,
        end: 358,
        first: 880,
        first_end: 881,
    },
    Alternative {
        start: 358,
        end: 359,
        first: 881,
        first_end: 882,
    },
    Alternative {
        start: 359,
        end: 360,
        first: 882,
        first_end: 883,
    },
    Alternative {
        start: 360,
        end: 361,
        first: 883,
        first_end: 884,
    },
    Alternative {
        start: 361,
        end: 362,
        first: 884,
        first_end: 885,
    },
    Alternative {
        start: 362,
        end: 363,
        first: 885,
        first_end: 886,
    },
    Alternative {
        start: 363,
        end: 364,
        first: 886,
        first_end: 887,
    },
    Alternative {
        start: 364,
        end: 365,
        first: 887,
        first_end: 888,
    },
    Alternative {
        start: 365,
        end: 366,
        first: 888,
        first_end: 889,
    },
    Alternative {
        start: 366,
        end: 367,
        first: 889,
        first_end: 890,
    },
    Alternative {
        start: 367,
        end: 368,
        first: 890,
        first_end: 891,
    },
    Alternative {
        start: 368,
        end: 369,
        first: 891,
        first_end: 892,
    },
    Alternative {
        start: 369,
        end: 370,
        first: 892,
        first_end: 893,
    },
    Alternative {
        start: 370,
        end: 371,
        first: 893,
        first_end: 894,
    },
    Alternative {
        start: 371,
        end: 372,
        first: 894,
        first_end: 895,
    },
    Alternative {
        start: 372,
        end: 373,
        first: 895,
        first_end: 896,
    },
    Alternative {
        start: 373,
        end: 374,
        first: 896,
        first_end: 897,
    },
    Alternative {
        start: 374,
        end: 375,
        first: 897,
        first_end: 898,
    },
    Alternative {
        start: 375,
        end: 376,
        first: 898,
        first_end: 899,
    },
    Alternative {
        start: 376,
        end: 377,
        first: 899,
        first_end: 900,
    },
    Alternative {
        start: 377,
        end: 378,
        first: 900,
        first_end: 901,
    },
    Alternative {
        start: 378,
        end: 379,
        first: 901,
        first_end: 902,
    },
    Alternative {
        start: 379,
        end: 380,
        first: 902,
        first_end: 903,
    },
    Alternative {
        start: 380,
        end: 381,
        first: 903,
        first_end: 904,
    },
    Alternative {
        start: 381,
        end: 382,
        first: 904,
        first_end: 905,
    },
    Alternative {
        start: 382,
        end: 383,
        first: 905,
        first_end: 906,
    },
    Alternative {
        start: 383,
        end: 384,
        first: 906,
        first_end: 907,
    },
    Alternative {
        start: 384,
        end: 385,
        first: 907,
        first_end: 908,
    },
    Alternative {
        start: 385,
        end: 386,
        first: 908,
        first_end: 909,
    },
    Alternative {
        start: 386,
        end: 387,
        first: 909,
        first_end: 910,
    },
    Alternative {
        start: 387,
        end: 388,
        first: 910,
        first_end: 911,
    },
    Alternative {
        start: 388,
        end: 389,
        first: 911,
        first_end: 912,
    },
    Alternative {
        start: 389,
        end: 390,
        first: 912,
        first_end: 913,
    },
    Alternative {
        start: 390,
        end: 391,
        first: 913,
        first_end: 914,
    },
    Alternative {
        start: 391,
        end: 392,
        first: 914,
        first_end: 915,
    },
    // any_word
    Alternative {
        start: 392,
        end: 393,
        first: 915,
        first_end: 1010,
    },
    Alternative {
        start: 393,
        end: 394,
        first: 1010,
        first_end: 1011,
    },
    // node_word
    Alternative {
        start: 394,
        end: 395,
        first: 1011,
        first_end: 1107,
    },
    Alternative {
        start: 395,
        end: 396,
        first: 1107,
        first_end: 1108,
    },
    // type
    Alternative {
        start: 396,
        end: 397,
        first: 1108,
        first_end: 1109,
    },
    Alternative {
        start: 397,
        end: 398,
        first: 1109,
        first_end: 1110,
    },
    Alternative {
        start: 398,
        end: 400,
        first: 1110,
        first_end: 1111,
    },
    Alternative {
        start: 400,
        end: 401,
        first: 1111,
        first_end: 1112,
    },
    Alternative {
        start: 401,
        end: 406,
        first: 1112,
        first_end: 1113,
    },
    Alternative {
        start: 406,
        end: 408,
        first: 1113,
        first_end: 1114,
    },
    Alternative {
        start: 408,
        end: 409,
        first: 1114,
        first_end: 1115,
    },
    Alternative {
        start: 409,
        end: 412,
        first: 1115,
        first_end: 1116,
    },
    // solid
    Alternative {
        start: 412,
        end: 413,
        first: 1116,
        first_end: 1117,
    },
    Alternative {
        start: 413,
        end: 415,
        first: 1117,
        first_end: 1118,
    },
    Alternative {
        start: 415,
        end: 416,
        first: 1118,
        first_end: 1119,
    },
    Alternative {
        start: 416,
        end: 421,
        first: 1119,
        first_end: 1120,
    },
    Alternative {
        start: 421,
        end: 423,
        first: 1120,
        first_end: 1121,
    },
    Alternative {
        start: 423,
        end: 424,
        first: 1121,
        first_end: 1122,
    },
    Alternative {
        start: 424,
        end: 427,
        first: 1122,
        first_end: 1123,
    },
    // flat
    Alternative {
        start: 427,
        end: 428,
        first: 1123,
        first_end: 1124,
    },
    Alternative {
        start: 428,
        end: 430,
        first: 1124,
        first_end: 1125,
    },
    Alternative {
        start: 430,
        end: 431,
        first: 1125,
        first_end: 1126,
    },
    Alternative {
        start: 431,
        end: 436,
        first: 1126,
        first_end: 1127,
    },
    Alternative {
        start: 436,
        end: 438,
        first: 1127,
        first_end: 1128,
    },
    Alternative {
        start: 438,
        end: 439,
        first: 1128,
        first_end: 1129,
    },
    // angle_type
    Alternative {
        start: 439,
        end: 443,
        first: 1129,
        first_end: 1130,
    },
    Alternative {
        start: 443,
        end: 449,
        first: 1130,
        first_end: 1131,
    },
    Alternative {
        start: 449,
        end: 453,
        first: 1131,
        first_end: 1132,
    },
    // types
    Alternative {
        start: 453,
        end: 455,
        first: 1132,
        first_end: 1140,
    },
    Alternative {
        start: 455,
        end: 455,
        first: 1140,
        first_end: 1140,
    },
    // more_types
    Alternative {
        start: 455,
        end: 458,
        first: 1140,
        first_end: 1141,
    },
    Alternative {
        start: 458,
        end: 458,
        first: 1141,
        first_end: 1141,
    },
    // called_type
    Alternative {
        start: 458,
        end: 460,
        first: 1141,
        first_end: 1149,
    },
    // signature
    Alternative {
        start: 460,
        end: 463,
        first: 1149,
        first_end: 1150,
    },
    Alternative {
        start: 463,
        end: 463,
        first: 1150,
        first_end: 1150,
    },
    // argument_types
    Alternative {
        start: 463,
        end: 465,
        first: 1150,
        first_end: 1158,
    },
    Alternative {
        start: 465,
        end: 466,
        first: 1158,
        first_end: 1159,
    },
    Alternative {
        start: 466,
        end: 466,
        first: 1159,
        first_end: 1159,
    },
    // more_argument_types
    Alternative {
        start: 466,
        end: 468,
        first: 1159,
        first_end: 1160,
    },
    Alternative {
        start: 468,
        end: 468,
        first: 1160,
        first_end: 1160,
    },
    // type_or_dots
    Alternative {
        start: 468,
        end: 470,
        first: 1160,
        first_end: 1168,
    },
    Alternative {
        start: 470,
        end: 471,
        first: 1168,
        first_end: 1169,
    },
    // tconst
    Alternative {
        start: 471,
        end: 473,
        first: 1169,
        first_end: 1177,
    },
    // const
    Alternative {
        start: 473,
        end: 474,
        first: 1177,
        first_end: 1178,
    },
    Alternative {
        start: 474,
        end: 475,
        first: 1178,
        first_end: 1179,
    },
    Alternative {
        start: 475,
        end: 476,
        first: 1179,
        first_end: 1180,
    },
    Alternative {
        start: 476,
        end: 479,
        first: 1180,
        first_end: 1181,
    },
    Alternative {
        start: 479,
        end: 482,
        first: 1181,
        first_end: 1182,
    },
    Alternative {
        start: 482,
        end: 484,
        first: 1182,
        first_end: 1183,
    },
    Alternative {
        start: 484,
        end: 485,
        first: 1183,
        first_end: 1184,
    },
    Alternative {
        start: 485,
        end: 489,
        first: 1184,
        first_end: 1185,
    },
    Alternative {
        start: 489,
        end: 490,
        first: 1185,
        first_end: 1186,
    },
    Alternative {
        start: 490,
        end: 496,
        first: 1186,
        first_end: 1187,
    },
    Alternative {
        start: 496,
        end: 502,
        first: 1187,
        first_end: 1189,
    },
    Alternative {
        start: 502,
        end: 509,
        first: 1189,
        first_end: 1190,
    },
    Alternative {
        start: 509,
        end: 518,
        first: 1190,
        first_end: 1191,
    },
    // const_angle
    Alternative {
        start: 518,
        end: 520,
        first: 1191,
        first_end: 1192,
    },
    Alternative {
        start: 520,
        end: 524,
        first: 1192,
        first_end: 1198,
    },
    Alternative {
        start: 524,
        end: 528,
        first: 1198,
        first_end: 1199,
    },
    // const_brace
    Alternative {
        start: 528,
        end: 530,
        first: 1199,
        first_end: 1200,
    },
    Alternative {
        start: 530,
        end: 532,
        first: 1200,
        first_end: 1208,
    },
    // const_empty
    Alternative {
        start: 532,
        end: 533,
        first: 1208,
        first_end: 1209,
    },
    Alternative {
        start: 533,
        end: 536,
        first: 1209,
        first_end: 1223,
    },
    // const_braced
    Alternative {
        start: 536,
        end: 540,
        first: 1223,
        first_end: 1237,
    },
    Alternative {
        start: 540,
        end: 545,
        first: 1237,
        first_end: 1239,
    },
    // const_cast
    Alternative {
        start: 545,
        end: 546,
        first: 1239,
        first_end: 1240,
    },
    Alternative {
        start: 546,
        end: 547,
        first: 1240,
        first_end: 1241,
    },
    // const_sum
    Alternative {
        start: 547,
        end: 548,
        first: 1241,
        first_end: 1242,
    },
    // tconsts
    Alternative {
        start: 548,
        end: 550,
        first: 1242,
        first_end: 1250,
    },
    Alternative {
        start: 550,
        end: 550,
        first: 1250,
        first_end: 1250,
    },
    // more_tconsts
    Alternative {
        start: 550,
        end: 553,
        first: 1250,
        first_end: 1251,
    },
    Alternative {
        start: 553,
        end: 553,
        first: 1251,
        first_end: 1251,
    },
    // in_range
    Alternative {
        start: 553,
        end: 555,
        first: 1251,
        first_end: 1252,
    },
    Alternative {
        start: 555,
        end: 555,
        first: 1252,
        first_end: 1252,
    },
    // inst
    Alternative {
        start: 555,
        end: 557,
        first: 1252,
        first_end: 1276,
    },
    Alternative {
        start: 557,
        end: 560,
        first: 1276,
        first_end: 1277,
    },
    Alternative {
        start: 560,
        end: 562,
        first: 1277,
        first_end: 1278,
    },
    Alternative {
        start: 562,
        end: 564,
        first: 1278,
        first_end: 1279,
    },
    Alternative {
        start: 564,
        end: 569,
        first: 1279,
        first_end: 1280,
    },
    Alternative {
        start: 569,
        end: 572,
        first: 1280,
        first_end: 1281,
    },
    Alternative {
        start: 572,
        end: 578,
        first: 1281,
        first_end: 1282,
    },
    Alternative {
        start: 578,
        end: 583,
        first: 1282,
        first_end: 1283,
    },
    Alternative {
        start: 583,
        end: 590,
        first: 1283,
        first_end: 1284,
    },
    Alternative {
        start: 590,
        end: 594,
        first: 1284,
        first_end: 1285,
    },
    // simple
    Alternative {
        start: 594,
        end: 596,
        first: 1285,
        first_end: 1286,
    },
    Alternative {
        start: 596,
        end: 598,
        first: 1286,
        first_end: 1287,
    },
    Alternative {
        start: 598,
        end: 606,
        first: 1287,
        first_end: 1288,
    },
    Alternative {
        start: 606,
        end: 612,
        first: 1288,
        first_end: 1289,
    },
    Alternative {
        start: 612,
        end: 613,
        first: 1289,
        first_end: 1290,
    },
    Alternative {
        start: 613,
        end: 616,
        first: 1290,
        first_end: 1291,
    },
    Alternative {
        start: 616,
        end: 619,
        first: 1291,
        first_end: 1292,
    },
    Alternative {
        start: 619,
        end: 622,
        first: 1292,
        first_end: 1293,
    },
    Alternative {
        start: 622,
        end: 624,
        first: 1293,
        first_end: 1294,
    },
    Alternative {
        start: 624,
        end: 626,
        first: 1294,
        first_end: 1295,
    },
    Alternative {
        start: 626,
        end: 629,
        first: 1295,
        first_end: 1296,
    },
    Alternative {
        start: 629,
        end: 633,
        first: 1296,
        first_end: 1297,
    },
    Alternative {
        start: 633,
        end: 637,
        first: 1297,
        first_end: 1298,
    },
    Alternative {
        start: 637,
        end: 641,
        first: 1298,
        first_end: 1299,
    },
    Alternative {
        start: 641,
        end: 646,
        first: 1299,
        first_end: 1300,
    },
    Alternative {
        start: 646,
        end: 651,
        first: 1300,
        first_end: 1301,
    },
    Alternative {
        start: 651,
        end: 653,
        first: 1301,
        first_end: 1302,
    },
    Alternative {
        start: 653,
        end: 657,
        first: 1302,
        first_end: 1303,
    },
    Alternative {
        start: 657,
        end: 663,
        first: 1303,
        first_end: 1304,
    },
    Alternative {
        start: 663,
        end: 669,
        first: 1304,
        first_end: 1305,
    },
    Alternative {
        start: 669,
        end: 671,
        first: 1305,
        first_end: 1306,
    },
    Alternative {
        start: 671,
        end: 675,
        first: 1306,
        first_end: 1307,
    },
    Alternative {
        start: 675,
        end: 678,
        first: 1307,
        first_end: 1309,
    },
    // value
    Alternative {
        start: 678,
        end: 679,
        first: 1309,
        first_end: 1310,
    },
    Alternative {
        start: 679,
        end: 680,
        first: 1310,
        first_end: 1311,
    },
    Alternative {
        start: 680,
        end: 681,
        first: 1311,
        first_end: 1312,
    },
    Alternative {
        start: 681,
        end: 682,
        first: 1312,
        first_end: 1313,
    },
    Alternative {
        start: 682,
        end: 685,
        first: 1313,
        first_end: 1314,
    },
    Alternative {
        start: 685,
        end: 688,
        first: 1314,
        first_end: 1315,
    },
    Alternative {
        start: 688,
        end: 690,
        first: 1315,
        first_end: 1316,
    },
    Alternative {
        start: 690,
        end: 691,
        first: 1316,
        first_end: 1317,
    },
    Alternative {
        start: 691,
        end: 695,
        first: 1317,
        first_end: 1318,
    },
    Alternative {
        start: 695,
        end: 696,
        first: 1318,
        first_end: 1319,
    },
    Alternative {
        start: 696,
        end: 702,
        first: 1319,
        first_end: 1320,
    },
    Alternative {
        start: 702,
        end: 708,
        first: 1320,
        first_end: 1322,
    },
    Alternative {
        start: 708,
        end: 715,
        first: 1322,
        first_end: 1323,
    },
    Alternative {
        start: 715,
        end: 724,
        first: 1323,
        first_end: 1324,
    },
    // typed
    Alternative {
        start: 724,
        end: 726,
        first: 1324,
        first_end: 1332,
    },
    // pair
    Alternative {
        start: 726,
        end: 730,
        first: 1332,
        first_end: 1340,
    },
    // ret
    Alternative {
        start: 730,
        end: 731,
        first: 1340,
        first_end: 1341,
    },
    Alternative {
        start: 731,
        end: 733,
        first: 1341,
        first_end: 1348,
    },
    // br
    Alternative {
        start: 733,
        end: 735,
        first: 1348,
        first_end: 1349,
    },
    Alternative {
        start: 735,
        end: 742,
        first: 1349,
        first_end: 1357,
    },
    // cases
    Alternative {
        start: 742,
        end: 747,
        first: 1357,
        first_end: 1365,
    },
    Alternative {
        start: 747,
        end: 747,
        first: 1365,
        first_end: 1365,
    },
    // labels
    Alternative {
        start: 747,
        end: 750,
        first: 1365,
        first_end: 1366,
    },
    Alternative {
        start: 750,
        end: 750,
        first: 1366,
        first_end: 1366,
    },
    // more_labels
    Alternative {
        start: 750,
        end: 754,
        first: 1366,
        first_end: 1367,
    },
    Alternative {
        start: 754,
        end: 754,
        first: 1367,
        first_end: 1367,
    },
    // sum
    Alternative {
        start: 754,
        end: 755,
        first: 1367,
        first_end: 1368,
    },
    Alternative {
        start: 755,
        end: 756,
        first: 1368,
        first_end: 1369,
    },
    // wraps
    Alternative {
        start: 756,
        end: 758,
        first: 1369,
        first_end: 1370,
    },
    Alternative {
        start: 758,
        end: 759,
        first: 1370,
        first_end: 1371,
    },
    Alternative {
        start: 759,
        end: 759,
        first: 1371,
        first_end: 1371,
    },
    // nsw
    Alternative {
        start: 759,
        end: 760,
        first: 1371,
        first_end: 1372,
    },
    Alternative {
        start: 760,
        end: 760,
        first: 1372,
        first_end: 1372,
    },
    // lost_wraps
    Alternative {
        start: 760,
        end: 762,
        first: 1372,
        first_end: 1373,
    },
    Alternative {
        start: 762,
        end: 764,
        first: 1373,
        first_end: 1374,
    },
    Alternative {
        start: 764,
        end: 764,
        first: 1374,
        first_end: 1374,
    },
    // lost_nsw
    Alternative {
        start: 764,
        end: 765,
        first: 1374,
        first_end: 1375,
    },
    Alternative {
        start: 765,
        end: 765,
        first: 1375,
        first_end: 1375,
    },
    // lost_nuw
    Alternative {
        start: 765,
        end: 766,
        first: 1375,
        first_end: 1376,
    },
    Alternative {
        start: 766,
        end: 766,
        first: 1376,
        first_end: 1376,
    },
    // quotient
    Alternative {
        start: 766,
        end: 767,
        first: 1376,
        first_end: 1377,
    },
    // lost_exact
    Alternative {
        start: 767,
        end: 768,
        first: 1377,
        first_end: 1378,
    },
    Alternative {
        start: 768,
        end: 768,
        first: 1378,
        first_end: 1378,
    },
    // bits
    Alternative {
        start: 768,
        end: 769,
        first: 1378,
        first_end: 1379,
    },
    Alternative {
        start: 769,
        end: 770,
        first: 1379,
        first_end: 1380,
    },
    // lost_disjoint
    Alternative {
        start: 770,
        end: 771,
        first: 1380,
        first_end: 1381,
    },
    Alternative {
        start: 771,
        end: 771,
        first: 1381,
        first_end: 1381,
    },
    // lost_samesign
    Alternative {
        start: 771,
        end: 772,
        first: 1381,
        first_end: 1382,
    },
    Alternative {
        start: 772,
        end: 772,
        first: 1382,
        first_end: 1382,
    },
    // predicate
    Alternative {
        start: 772,
        end: 773,
        first: 1382,
        first_end: 1383,
    },
    // cast
    Alternative {
        start: 773,
        end: 774,
        first: 1383,
        first_end: 1384,
    },
    Alternative {
        start: 774,
        end: 775,
        first: 1384,
        first_end: 1385,
    },
    // nneg
    Alternative {
        start: 775,
        end: 776,
        first: 1385,
        first_end: 1386,
    },
    Alternative {
        start: 776,
        end: 776,
        first: 1386,
        first_end: 1386,
    },
    // alloca_tail
    Alternative {
        start: 776,
        end: 778,
        first: 1386,
        first_end: 1387,
    },
    Alternative {
        start: 778,
        end: 778,
        first: 1387,
        first_end: 1387,
    },
    // alloca_part
    Alternative {
        start: 778,
        end: 780,
        first: 1387,
        first_end: 1395,
    },
    Alternative {
        start: 780,
        end: 783,
        first: 1395,
        first_end: 1396,
    },
    Alternative {
        start: 783,
        end: 788,
        first: 1396,
        first_end: 1397,
    },
    Alternative {
        start: 788,
        end: 791,
        first: 1397,
        first_end: 1405,
    },
    // alloca_rest
    Alternative {
        start: 791,
        end: 793,
        first: 1405,
        first_end: 1406,
    },
    Alternative {
        start: 793,
        end: 793,
        first: 1406,
        first_end: 1406,
    },
    // alloca_rest_part
    Alternative {
        start: 793,
        end: 796,
        first: 1406,
        first_end: 1407,
    },
    Alternative {
        start: 796,
        end: 801,
        first: 1407,
        first_end: 1408,
    },
    Alternative {
        start: 801,
        end: 804,
        first: 1408,
        first_end: 1416,
    },
    // alloca_end
    Alternative {
        start: 804,
        end: 806,
        first: 1416,
        first_end: 1417,
    },
    Alternative {
        start: 806,
        end: 806,
        first: 1417,
        first_end: 1417,
    },
    // alloca_end_part
    Alternative {
        start: 806,
        end: 811,
        first: 1417,
        first_end: 1418,
    },
    Alternative {
        start: 811,
        end: 814,
        first: 1418,
        first_end: 1426,
    },
    // load
    Alternative {
        start: 814,
        end: 819,
        first: 1426,
        first_end: 1435,
    },
    Alternative {
        start: 819,
        end: 821,
        first: 1435,
        first_end: 1436,
    },
    // atomic_load
    Alternative {
        start: 821,
        end: 826,
        first: 1436,
        first_end: 1444,
    },
    // store
    Alternative {
        start: 826,
        end: 831,
        first: 1444,
        first_end: 1453,
    },
    Alternative {
        start: 831,
        end: 833,
        first: 1453,
        first_end: 1454,
    },
    // atomic_store
    Alternative {
        start: 833,
        end: 838,
        first: 1454,
        first_end: 1462,
    },
    // volatile
    Alternative {
        start: 838,
        end: 839,
        first: 1462,
        first_end: 1463,
    },
    Alternative {
        start: 839,
        end: 839,
        first: 1463,
        first_end: 1463,
    },
    // rmw_kind
    Alternative {
        start: 839,
        end: 840,
        first: 1463,
        first_end: 1464,
    },
    Alternative {
        start: 840,
        end: 841,
        first: 1464,
        first_end: 1465,
    },
    Alternative {
        start: 841,
        end: 842,
        first: 1465,
        first_end: 1466,
    },
    Alternative {
        start: 842,
        end: 843,
        first: 1466,
        first_end: 1467,
    },
    // address_and_value
    Alternative {
        start: 843,
        end: 846,
        first: 1467,
        first_end: 1475,
    },
    // lost_weak
    Alternative {
        start: 846,
        end: 847,
        first: 1475,
        first_end: 1476,
    },
    Alternative {
        start: 847,
        end: 847,
        first: 1476,
        first_end: 1476,
    },
    // exchange
    Alternative {
        start: 847,
        end: 852,
        first: 1476,
        first_end: 1484,
    },
    // exchange_order
    Alternative {
        start: 852,
        end: 855,
        first: 1484,
        first_end: 1486,
    },
    // order
    Alternative {
        start: 855,
        end: 857,
        first: 1486,
        first_end: 1488,
    },
    // scope
    Alternative {
        start: 857,
        end: 861,
        first: 1488,
        first_end: 1489,
    },
    Alternative {
        start: 861,
        end: 861,
        first: 1489,
        first_end: 1489,
    },
    // ordering
    Alternative {
        start: 861,
        end: 862,
        first: 1489,
        first_end: 1490,
    },
    // gep_flags
    Alternative {
        start: 862,
        end: 864,
        first: 1490,
        first_end: 1492,
    },
    Alternative {
        start: 864,
        end: 864,
        first: 1492,
        first_end: 1492,
    },
    // gep_flag
    Alternative {
        start: 864,
        end: 865,
        first: 1492,
        first_end: 1493,
    },
    Alternative {
        start: 865,
        end: 866,
        first: 1493,
        first_end: 1494,
    },
    // more_indices
    Alternative {
        start: 866,
        end: 868,
        first: 1494,
        first_end: 1495,
    },
    Alternative {
        start: 868,
        end: 868,
        first: 1495,
        first_end: 1495,
    },
    // index_or_node
    Alternative {
        start: 868,
        end: 870,
        first: 1495,
        first_end: 1503,
    },
    Alternative {
        start: 870,
        end: 873,
        first: 1503,
        first_end: 1511,
    },
    // more_places
    Alternative {
        start: 873,
        end: 875,
        first: 1511,
        first_end: 1512,
    },
    Alternative {
        start: 875,
        end: 875,
        first: 1512,
        first_end: 1512,
    },
    // place_or_node
    Alternative {
        start: 875,
        end: 877,
        first: 1512,
        first_end: 1513,
    },
    Alternative {
        start: 877,
        end: 880,
        first: 1513,
        first_end: 1521,
    },
    // entry
    Alternative {
        start: 880,
        end: 885,
        first: 1521,
        first_end: 1522,
    },
    // more_entries
    Alternative {
        start: 885,
        end: 887,
        first: 1522,
        first_end: 1523,
    },
    Alternative {
        start: 887,
        end: 887,
        first: 1523,
        first_end: 1523,
    },
    // entry_or_node
    Alternative {
        start: 887,
        end: 889,
        first: 1523,
        first_end: 1524,
    },
    Alternative {
        start: 889,
        end: 892,
        first: 1524,
        first_end: 1532,
    },
    // align_attached
    Alternative {
        start: 892,
        end: 894,
        first: 1532,
        first_end: 1533,
    },
    Alternative {
        start: 894,
        end: 894,
        first: 1533,
        first_end: 1533,
    },
    // align_or_attached
    Alternative {
        start: 894,
        end: 897,
        first: 1533,
        first_end: 1534,
    },
    Alternative {
        start: 897,
        end: 900,
        first: 1534,
        first_end: 1542,
    },
    // lost_align_attached
    Alternative {
        start: 900,
        end: 902,
        first: 1542,
        first_end: 1543,
    },
    Alternative {
        start: 902,
        end: 902,
        first: 1543,
        first_end: 1543,
    },
    // lost_align_or_attached
    Alternative {
        start: 902,
        end: 905,
        first: 1543,
        first_end: 1544,
    },
    Alternative {
        start: 905,
        end: 908,
        first: 1544,
        first_end: 1552,
    },
    // tail
    Alternative {
        start: 908,
        end: 909,
        first: 1552,
        first_end: 1553,
    },
    Alternative {
        start: 909,
        end: 909,
        first: 1553,
        first_end: 1553,
    },
    // call
    Alternative {
        start: 909,
        end: 914,
        first: 1553,
        first_end: 1570,
    },
    // callee
    Alternative {
        start: 914,
        end: 915,
        first: 1570,
        first_end: 1571,
    },
    Alternative {
        start: 915,
        end: 916,
        first: 1571,
        first_end: 1572,
    },
    Alternative {
        start: 916,
        end: 918,
        first: 1572,
        first_end: 1573,
    },
    // asm
    Alternative {
        start: 918,
        end: 920,
        first: 1573,
        first_end: 1574,
    },
    Alternative {
        start: 920,
        end: 921,
        first: 1574,
        first_end: 1575,
    },
    // asm_text
    Alternative {
        start: 921,
        end: 924,
        first: 1575,
        first_end: 1576,
    },
    // arguments
    Alternative {
        start: 924,
        end: 927,
        first: 1576,
        first_end: 1577,
    },
    // args
    Alternative {
        start: 927,
        end: 929,
        first: 1577,
        first_end: 1585,
    },
    Alternative {
        start: 929,
        end: 929,
        first: 1585,
        first_end: 1585,
    },
    // more_args
    Alternative {
        start: 929,
        end: 932,
        first: 1585,
        first_end: 1586,
    },
    Alternative {
        start: 932,
        end: 932,
        first: 1586,
        first_end: 1586,
    },
    // arg
    Alternative {
        start: 932,
        end: 935,
        first: 1586,
        first_end: 1594,
    },
    // attached
    Alternative {
        start: 935,
        end: 939,
        first: 1594,
        first_end: 1595,
    },
    Alternative {
        start: 939,
        end: 939,
        first: 1595,
        first_end: 1595,
    },
    // attachments
    Alternative {
        start: 939,
        end: 942,
        first: 1595,
        first_end: 1603,
    },
    Alternative {
        start: 942,
        end: 942,
        first: 1603,
        first_end: 1603,
    },
    // mdname
    Alternative {
        start: 942,
        end: 943,
        first: 1603,
        first_end: 1604,
    },
    Alternative {
        start: 943,
        end: 944,
        first: 1604,
        first_end: 1605,
    },
    Alternative {
        start: 944,
        end: 945,
        first: 1605,
        first_end: 1606,
    },
    Alternative {
        start: 945,
        end: 946,
        first: 1606,
        first_end: 1607,
    },
    Alternative {
        start: 946,
        end: 947,
        first: 1607,
        first_end: 1608,
    },
    Alternative {
        start: 947,
        end: 948,
        first: 1608,
        first_end: 1609,
    },
    Alternative {
        start: 948,
        end: 949,
        first: 1609,
        first_end: 1610,
    },
    Alternative {
        start: 949,
        end: 950,
        first: 1610,
        first_end: 1611,
    },
    // mdref
    Alternative {
        start: 950,
        end: 951,
        first: 1611,
        first_end: 1612,
    },
    Alternative {
        start: 951,
        end: 952,
        first: 1612,
        first_end: 1621,
    },
    // mdrefs
    Alternative {
        start: 952,
        end: 954,
        first: 1621,
        first_end: 1631,
    },
    Alternative {
        start: 954,
        end: 954,
        first: 1631,
        first_end: 1631,
    },
    // more_mdrefs
    Alternative {
        start: 954,
        end: 957,
        first: 1631,
        first_end: 1632,
    },
    Alternative {
        start: 957,
        end: 957,
        first: 1632,
        first_end: 1632,
    },
    // node
    Alternative {
        start: 957,
        end: 961,
        first: 1632,
        first_end: 1633,
    },
    Alternative {
        start: 961,
        end: 965,
        first: 1633,
        first_end: 1640,
    },
    Alternative {
        start: 965,
        end: 967,
        first: 1640,
        first_end: 1641,
    },
    // debug_node
    Alternative {
        start: 967,
        end: 968,
        first: 1641,
        first_end: 1642,
    },
    Alternative {
        start: 968,
        end: 969,
        first: 1642,
        first_end: 1643,
    },
    Alternative {
        start: 969,
        end: 970,
        first: 1643,
        first_end: 1644,
    },
    Alternative {
        start: 970,
        end: 971,
        first: 1644,
        first_end: 1645,
    },
    Alternative {
        start: 971,
        end: 972,
        first: 1645,
        first_end: 1646,
    },
    Alternative {
        start: 972,
        end: 973,
        first: 1646,
        first_end: 1647,
    },
    Alternative {
        start: 973,
        end: 974,
        first: 1647,
        first_end: 1648,
    },
    // mdops
    Alternative {
        start: 974,
        end: 976,
        first: 1648,
        first_end: 1668,
    },
    Alternative {
        start: 976,
        end: 976,
        first: 1668,
        first_end: 1668,
    },
    // more_mdops
    Alternative {
        start: 976,
        end: 979,
        first: 1668,
        first_end: 1669,
    },
    Alternative {
        start: 979,
        end: 979,
        first: 1669,
        first_end: 1669,
    },
    // mdop
    Alternative {
        start: 979,
        end: 980,
        first: 1669,
        first_end: 1670,
    },
    Alternative {
        start: 980,
        end: 981,
        first: 1670,
        first_end: 1671,
    },
    Alternative {
        start: 981,
        end: 982,
        first: 1671,
        first_end: 1681,
    },
    Alternative {
        start: 982,
        end: 983,
        first: 1681,
        first_end: 1689,
    },
    // fields
    Alternative {
        start: 983,
        end: 985,
        first: 1689,
        first_end: 1690,
    },
    Alternative {
        start: 985,
        end: 985,
        first: 1690,
        first_end: 1690,
    },
    // more_fields
    Alternative {
        start: 985,
        end: 988,
        first: 1690,
        first_end: 1691,
    },
    Alternative {
        start: 988,
        end: 988,
        first: 1691,
        first_end: 1691,
    },
    // field
    Alternative {
        start: 988,
        end: 990,
        first: 1691,
        first_end: 1692,
    },
    // field_value
    Alternative {
        start: 990,
        end: 991,
        first: 1692,
        first_end: 1693,
    },
    Alternative {
        start: 991,
        end: 992,
        first: 1693,
        first_end: 1694,
    },
    Alternative {
        start: 992,
        end: 994,
        first: 1694,
        first_end: 1791,
    },
    Alternative {
        start: 994,
        end: 995,
        first: 1791,
        first_end: 1801,
    },
    // more_words
    Alternative {
        start: 995,
        end: 998,
        first: 1801,
        first_end: 1802,
    },
    Alternative {
        start: 998,
        end: 998,
        first: 1802,
        first_end: 1802,
    },
];

/// The rules.
pub static ROWS: [Row; 163] = [
    // 0: file
    Row {
        start: 0,
        end: 2,
        more: 0,
        more_end: 35,
        nothing: 2,
        height: 3,
    },
    // 1: item
    Row {
        start: 2,
        end: 11,
        more: 35,
        more_end: 54,
        nothing: 0,
        height: 2,
    },
    // 2: target
    Row {
        start: 11,
        end: 12,
        more: 54,
        more_end: 54,
        nothing: 0,
        height: 1,
    },
    // 3: distinct
    Row {
        start: 12,
        end: 14,
        more: 54,
        more_end: 55,
        nothing: 14,
        height: 1,
    },
    // 4: type_body
    Row {
        start: 14,
        end: 17,
        more: 55,
        more_end: 55,
        nothing: 0,
        height: 1,
    },
    // 5: body_linkage
    Row {
        start: 17,
        end: 19,
        more: 55,
        more_end: 55,
        nothing: 0,
        height: 1,
    },
    // 6: data_linkage
    Row {
        start: 19,
        end: 21,
        more: 55,
        more_end: 55,
        nothing: 0,
        height: 2,
    },
    // 7: outer_linkage
    Row {
        start: 21,
        end: 23,
        more: 55,
        more_end: 55,
        nothing: 0,
        height: 1,
    },
    // 8: define_linkage
    Row {
        start: 23,
        end: 26,
        more: 55,
        more_end: 58,
        nothing: 26,
        height: 2,
    },
    // 9: declare_linkage
    Row {
        start: 26,
        end: 28,
        more: 58,
        more_end: 60,
        nothing: 28,
        height: 2,
    },
    // 10: dso
    Row {
        start: 28,
        end: 30,
        more: 60,
        more_end: 61,
        nothing: 30,
        height: 1,
    },
    // 11: unnamed
    Row {
        start: 30,
        end: 32,
        more: 61,
        more_end: 62,
        nothing: 32,
        height: 1,
    },
    // 12: symbol
    Row {
        start: 32,
        end: 35,
        more: 62,
        more_end: 65,
        nothing: 0,
        height: 6,
    },
    // 13: outer_symbol
    Row {
        start: 35,
        end: 37,
        more: 65,
        more_end: 68,
        nothing: 0,
        height: 3,
    },
    // 14: inner_symbol
    Row {
        start: 37,
        end: 39,
        more: 68,
        more_end: 70,
        nothing: 0,
        height: 3,
    },
    // 15: storage
    Row {
        start: 39,
        end: 40,
        more: 70,
        more_end: 70,
        nothing: 0,
        height: 1,
    },
    // 16: space
    Row {
        start: 40,
        end: 42,
        more: 70,
        more_end: 71,
        nothing: 42,
        height: 1,
    },
    // 17: variable_tail
    Row {
        start: 42,
        end: 44,
        more: 71,
        more_end: 73,
        nothing: 44,
        height: 2,
    },
    // 18: align_or_node
    Row {
        start: 44,
        end: 46,
        more: 73,
        more_end: 75,
        nothing: 0,
        height: 2,
    },
    // 19: lost_groups
    Row {
        start: 46,
        end: 48,
        more: 75,
        more_end: 76,
        nothing: 48,
        height: 1,
    },
    // 20: alias
    Row {
        start: 48,
        end: 49,
        more: 76,
        more_end: 76,
        nothing: 0,
        height: 3,
    },
    // 21: head
    Row {
        start: 49,
        end: 50,
        more: 76,
        more_end: 78,
        nothing: 0,
        height: 5,
    },
    // 22: parameters
    Row {
        start: 50,
        end: 51,
        more: 78,
        more_end: 80,
        nothing: 0,
        height: 1,
    },
    // 23: params
    Row {
        start: 51,
        end: 54,
        more: 80,
        more_end: 101,
        nothing: 54,
        height: 3,
    },
    // 24: more_params
    Row {
        start: 54,
        end: 56,
        more: 101,
        more_end: 114,
        nothing: 56,
        height: 1,
    },
    // 25: param_or_dots
    Row {
        start: 56,
        end: 58,
        more: 114,
        more_end: 127,
        nothing: 0,
        height: 3,
    },
    // 26: param
    Row {
        start: 58,
        end: 59,
        more: 127,
        more_end: 139,
        nothing: 0,
        height: 2,
    },
    // 27: name
    Row {
        start: 59,
        end: 61,
        more: 139,
        more_end: 140,
        nothing: 61,
        height: 1,
    },
    // 28: body
    Row {
        start: 61,
        end: 62,
        more: 140,
        more_end: 194,
        nothing: 0,
        height: 5,
    },
    // 29: body_parts
    Row {
        start: 62,
        end: 64,
        more: 194,
        more_end: 248,
        nothing: 64,
        height: 5,
    },
    // 30: body_part
    Row {
        start: 64,
        end: 68,
        more: 248,
        more_end: 266,
        nothing: 0,
        height: 4,
    },
    // 31: line
    Row {
        start: 68,
        end: 71,
        more: 266,
        more_end: 284,
        nothing: 0,
        height: 4,
    },
    // 32: lost_attrs
    Row {
        start: 71,
        end: 73,
        more: 284,
        more_end: 294,
        nothing: 73,
        height: 2,
    },
    // 33: lost_attr
    Row {
        start: 73,
        end: 82,
        more: 294,
        more_end: 295,
        nothing: 0,
        height: 1,
    },
    // 34: text_value
    Row {
        start: 82,
        end: 84,
        more: 295,
        more_end: 296,
        nothing: 84,
        height: 1,
    },
    // 35: function_attrs
    Row {
        start: 84,
        end: 86,
        more: 296,
        more_end: 312,
        nothing: 86,
        height: 4,
    },
    // 36: function_attr
    Row {
        start: 86,
        end: 89,
        more: 312,
        more_end: 314,
        nothing: 0,
        height: 3,
    },
    // 37: align_value
    Row {
        start: 89,
        end: 91,
        more: 314,
        more_end: 314,
        nothing: 0,
        height: 1,
    },
    // 38: call_attrs
    Row {
        start: 91,
        end: 94,
        more: 314,
        more_end: 330,
        nothing: 94,
        height: 4,
    },
    // 39: group_attrs
    Row {
        start: 94,
        end: 96,
        more: 330,
        more_end: 345,
        nothing: 96,
        height: 4,
    },
    // 40: group_attr
    Row {
        start: 96,
        end: 98,
        more: 345,
        more_end: 347,
        nothing: 0,
        height: 3,
    },
    // 41: attr
    Row {
        start: 98,
        end: 106,
        more: 347,
        more_end: 349,
        nothing: 0,
        height: 2,
    },
    // 42: stack_value
    Row {
        start: 106,
        end: 108,
        more: 349,
        more_end: 349,
        nothing: 0,
        height: 1,
    },
    // 43: stack_number
    Row {
        start: 108,
        end: 110,
        more: 349,
        more_end: 349,
        nothing: 0,
        height: 1,
    },
    // 44: unwind_value
    Row {
        start: 110,
        end: 112,
        more: 349,
        more_end: 350,
        nothing: 112,
        height: 1,
    },
    // 45: unwind_number
    Row {
        start: 112,
        end: 114,
        more: 350,
        more_end: 350,
        nothing: 0,
        height: 1,
    },
    // 46: number_attr
    Row {
        start: 114,
        end: 117,
        more: 350,
        more_end: 350,
        nothing: 0,
        height: 1,
    },
    // 47: either_attr
    Row {
        start: 117,
        end: 119,
        more: 350,
        more_end: 350,
        nothing: 0,
        height: 1,
    },
    // 48: number_or_inside
    Row {
        start: 119,
        end: 124,
        more: 350,
        more_end: 350,
        nothing: 0,
        height: 3,
    },
    // 49: range_attr
    Row {
        start: 124,
        end: 125,
        more: 350,
        more_end: 350,
        nothing: 0,
        height: 1,
    },
    // 50: enum_attr
    Row {
        start: 125,
        end: 127,
        more: 350,
        more_end: 350,
        nothing: 0,
        height: 1,
    },
    // 51: parens
    Row {
        start: 127,
        end: 128,
        more: 350,
        more_end: 350,
        nothing: 0,
        height: 1,
    },
    // 52: inside
    Row {
        start: 128,
        end: 132,
        more: 350,
        more_end: 350,
        nothing: 0,
        height: 3,
    },
    // 53: node_parens
    Row {
        start: 132,
        end: 133,
        more: 350,
        more_end: 350,
        nothing: 0,
        height: 1,
    },
    // 54: node_inside
    Row {
        start: 133,
        end: 138,
        more: 350,
        more_end: 350,
        nothing: 0,
        height: 4,
    },
    // 55: plain
    Row {
        start: 138,
        end: 150,
        more: 350,
        more_end: 350,
        nothing: 0,
        height: 2,
    },
    // 56: mark
    Row {
        start: 150,
        end: 161,
        more: 350,
        more_end: 350,
        nothing: 0,
        height: 1,
    },
    // 57: most_words
    Row {
        start: 161,
        end: 256,
        more: 350,
        more_end: 350,
        nothing: 0,
        height: 1,
    },
    // 58: any_word
    Row {
        start: 256,
        end: 258,
        more: 350,
        more_end: 350,
        nothing: 0,
        height: 2,
    },
    // 59: node_word
    Row {
        start: 258,
        end: 260,
        more: 350,
        more_end: 350,
        nothing: 0,
        height: 3,
    },
    // 60: type
    Row {
        start: 260,
        end: 268,
        more: 350,
        more_end: 351,
        nothing: 0,
        height: 1,
    },
    // 61: solid
    Row {
        start: 268,
        end: 275,
        more: 351,
        more_end: 352,
        nothing: 0,
        height: 1,
    },
    // 62: flat
    Row {
        start: 275,
        end: 281,
        more: 352,
        more_end: 353,
        nothing: 0,
        height: 1,
    },
    // 63: angle_type
    Row {
        start: 281,
        end: 284,
        more: 353,
        more_end: 353,
        nothing: 0,
        height: 1,
    },
    // 64: types
    Row {
        start: 284,
        end: 286,
        more: 353,
        more_end: 363,
        nothing: 286,
        height: 2,
    },
    // 65: more_types
    Row {
        start: 286,
        end: 288,
        more: 363,
        more_end: 365,
        nothing: 288,
        height: 1,
    },
    // 66: called_type
    Row {
        start: 288,
        end: 289,
        more: 365,
        more_end: 367,
        nothing: 0,
        height: 2,
    },
    // 67: signature
    Row {
        start: 289,
        end: 291,
        more: 367,
        more_end: 368,
        nothing: 291,
        height: 1,
    },
    // 68: argument_types
    Row {
        start: 291,
        end: 294,
        more: 368,
        more_end: 379,
        nothing: 294,
        height: 2,
    },
    // 69: more_argument_types
    Row {
        start: 294,
        end: 296,
        more: 379,
        more_end: 381,
        nothing: 296,
        height: 1,
    },
    // 70: type_or_dots
    Row {
        start: 296,
        end: 298,
        more: 381,
        more_end: 383,
        nothing: 0,
        height: 2,
    },
    // 71: tconst
    Row {
        start: 298,
        end: 299,
        more: 383,
        more_end: 383,
        nothing: 0,
        height: 2,
    },
    // 72: const
    Row {
        start: 299,
        end: 312,
        more: 383,
        more_end: 383,
        nothing: 0,
        height: 2,
    },
    // 73: const_angle
    Row {
        start: 312,
        end: 315,
        more: 383,
        more_end: 383,
        nothing: 0,
        height: 2,
    },
    // 74: const_brace
    Row {
        start: 315,
        end: 317,
        more: 383,
        more_end: 383,
        nothing: 0,
        height: 2,
    },
    // 75: const_empty
    Row {
        start: 317,
        end: 319,
        more: 383,
        more_end: 383,
        nothing: 0,
        height: 3,
    },
    // 76: const_braced
    Row {
        start: 319,
        end: 321,
        more: 383,
        more_end: 383,
        nothing: 0,
        height: 3,
    },
    // 77: const_cast
    Row {
        start: 321,
        end: 323,
        more: 383,
        more_end: 383,
        nothing: 0,
        height: 1,
    },
    // 78: const_sum
    Row {
        start: 323,
        end: 324,
        more: 383,
        more_end: 383,
        nothing: 0,
        height: 1,
    },
    // 79: tconsts
    Row {
        start: 324,
        end: 326,
        more: 383,
        more_end: 392,
        nothing: 326,
        height: 3,
    },
    // 80: more_tconsts
    Row {
        start: 326,
        end: 328,
        more: 392,
        more_end: 393,
        nothing: 328,
        height: 1,
    },
    // 81: in_range
    Row {
        start: 328,
        end: 330,
        more: 393,
        more_end: 394,
        nothing: 330,
        height: 1,
    },
    // 82: inst
    Row {
        start: 330,
        end: 340,
        more: 394,
        more_end: 412,
        nothing: 0,
        height: 3,
    },
    // 83: simple
    Row {
        start: 340,
        end: 363,
        more: 412,
        more_end: 429,
        nothing: 0,
        height: 2,
    },
    // 84: value
    Row {
        start: 363,
        end: 377,
        more: 429,
        more_end: 429,
        nothing: 0,
        height: 2,
    },
    // 85: typed
    Row {
        start: 377,
        end: 378,
        more: 429,
        more_end: 429,
        nothing: 0,
        height: 2,
    },
    // 86: pair
    Row {
        start: 378,
        end: 379,
        more: 429,
        more_end: 429,
        nothing: 0,
        height: 2,
    },
    // 87: ret
    Row {
        start: 379,
        end: 381,
        more: 429,
        more_end: 429,
        nothing: 0,
        height: 2,
    },
    // 88: br
    Row {
        start: 381,
        end: 383,
        more: 429,
        more_end: 429,
        nothing: 0,
        height: 3,
    },
    // 89: cases
    Row {
        start: 383,
        end: 385,
        more: 429,
        more_end: 437,
        nothing: 385,
        height: 3,
    },
    // 90: labels
    Row {
        start: 385,
        end: 387,
        more: 437,
        more_end: 439,
        nothing: 387,
        height: 1,
    },
    // 91: more_labels
    Row {
        start: 387,
        end: 389,
        more: 439,
        more_end: 440,
        nothing: 389,
        height: 1,
    },
    // 92: sum
    Row {
        start: 389,
        end: 391,
        more: 440,
        more_end: 440,
        nothing: 0,
        height: 1,
    },
    // 93: wraps
    Row {
        start: 391,
        end: 394,
        more: 440,
        more_end: 442,
        nothing: 394,
        height: 1,
    },
    // 94: nsw
    Row {
        start: 394,
        end: 396,
        more: 442,
        more_end: 443,
        nothing: 396,
        height: 1,
    },
    // 95: lost_wraps
    Row {
        start: 396,
        end: 399,
        more: 443,
        more_end: 445,
        nothing: 399,
        height: 1,
    },
    // 96: lost_nsw
    Row {
        start: 399,
        end: 401,
        more: 445,
        more_end: 446,
        nothing: 401,
        height: 1,
    },
    // 97: lost_nuw
    Row {
        start: 401,
        end: 403,
        more: 446,
        more_end: 447,
        nothing: 403,
        height: 1,
    },
    // 98: quotient
    Row {
        start: 403,
        end: 404,
        more: 447,
        more_end: 447,
        nothing: 0,
        height: 1,
    },
    // 99: lost_exact
    Row {
        start: 404,
        end: 406,
        more: 447,
        more_end: 448,
        nothing: 406,
        height: 1,
    },
    // 100: bits
    Row {
        start: 406,
        end: 408,
        more: 448,
        more_end: 448,
        nothing: 0,
        height: 1,
    },
    // 101: lost_disjoint
    Row {
        start: 408,
        end: 410,
        more: 448,
        more_end: 449,
        nothing: 410,
        height: 1,
    },
    // 102: lost_samesign
    Row {
        start: 410,
        end: 412,
        more: 449,
        more_end: 450,
        nothing: 412,
        height: 1,
    },
    // 103: predicate
    Row {
        start: 412,
        end: 413,
        more: 450,
        more_end: 450,
        nothing: 0,
        height: 1,
    },
    // 104: cast
    Row {
        start: 413,
        end: 415,
        more: 450,
        more_end: 450,
        nothing: 0,
        height: 1,
    },
    // 105: nneg
    Row {
        start: 415,
        end: 417,
        more: 450,
        more_end: 451,
        nothing: 417,
        height: 1,
    },
    // 106: alloca_tail
    Row {
        start: 417,
        end: 419,
        more: 451,
        more_end: 452,
        nothing: 419,
        height: 1,
    },
    // 107: alloca_part
    Row {
        start: 419,
        end: 423,
        more: 452,
        more_end: 453,
        nothing: 0,
        height: 3,
    },
    // 108: alloca_rest
    Row {
        start: 423,
        end: 425,
        more: 453,
        more_end: 454,
        nothing: 425,
        height: 1,
    },
    // 109: alloca_rest_part
    Row {
        start: 425,
        end: 428,
        more: 454,
        more_end: 455,
        nothing: 0,
        height: 2,
    },
    // 110: alloca_end
    Row {
        start: 428,
        end: 430,
        more: 455,
        more_end: 456,
        nothing: 430,
        height: 1,
    },
    // 111: alloca_end_part
    Row {
        start: 430,
        end: 432,
        more: 456,
        more_end: 457,
        nothing: 0,
        height: 2,
    },
    // 112: load
    Row {
        start: 432,
        end: 434,
        more: 457,
        more_end: 458,
        nothing: 0,
        height: 3,
    },
    // 113: atomic_load
    Row {
        start: 434,
        end: 435,
        more: 458,
        more_end: 459,
        nothing: 0,
        height: 2,
    },
    // 114: store
    Row {
        start: 435,
        end: 437,
        more: 459,
        more_end: 460,
        nothing: 0,
        height: 4,
    },
    // 115: atomic_store
    Row {
        start: 437,
        end: 438,
        more: 460,
        more_end: 461,
        nothing: 0,
        height: 3,
    },
    // 116: volatile
    Row {
        start: 438,
        end: 440,
        more: 461,
        more_end: 462,
        nothing: 440,
        height: 1,
    },
    // 117: rmw_kind
    Row {
        start: 440,
        end: 444,
        more: 462,
        more_end: 462,
        nothing: 0,
        height: 1,
    },
    // 118: address_and_value
    Row {
        start: 444,
        end: 445,
        more: 462,
        more_end: 462,
        nothing: 0,
        height: 3,
    },
    // 119: lost_weak
    Row {
        start: 445,
        end: 447,
        more: 462,
        more_end: 463,
        nothing: 447,
        height: 1,
    },
    // 120: exchange
    Row {
        start: 447,
        end: 448,
        more: 463,
        more_end: 464,
        nothing: 0,
        height: 3,
    },
    // 121: exchange_order
    Row {
        start: 448,
        end: 449,
        more: 464,
        more_end: 464,
        nothing: 0,
        height: 3,
    },
    // 122: order
    Row {
        start: 449,
        end: 450,
        more: 464,
        more_end: 464,
        nothing: 0,
        height: 3,
    },
    // 123: scope
    Row {
        start: 450,
        end: 452,
        more: 464,
        more_end: 465,
        nothing: 452,
        height: 1,
    },
    // 124: ordering
    Row {
        start: 452,
        end: 453,
        more: 465,
        more_end: 465,
        nothing: 0,
        height: 1,
    },
    // 125: gep_flags
    Row {
        start: 453,
        end: 455,
        more: 465,
        more_end: 467,
        nothing: 455,
        height: 2,
    },
    // 126: gep_flag
    Row {
        start: 455,
        end: 457,
        more: 467,
        more_end: 467,
        nothing: 0,
        height: 1,
    },
    // 127: more_indices
    Row {
        start: 457,
        end: 459,
        more: 467,
        more_end: 468,
        nothing: 459,
        height: 1,
    },
    // 128: index_or_node
    Row {
        start: 459,
        end: 461,
        more: 468,
        more_end: 469,
        nothing: 0,
        height: 3,
    },
    // 129: more_places
    Row {
        start: 461,
        end: 463,
        more: 469,
        more_end: 470,
        nothing: 463,
        height: 1,
    },
    // 130: place_or_node
    Row {
        start: 463,
        end: 465,
        more: 470,
        more_end: 471,
        nothing: 0,
        height: 2,
    },
    // 131: entry
    Row {
        start: 465,
        end: 466,
        more: 471,
        more_end: 471,
        nothing: 0,
        height: 1,
    },
    // 132: more_entries
    Row {
        start: 466,
        end: 468,
        more: 471,
        more_end: 472,
        nothing: 468,
        height: 1,
    },
    // 133: entry_or_node
    Row {
        start: 468,
        end: 470,
        more: 472,
        more_end: 473,
        nothing: 0,
        height: 2,
    },
    // 134: align_attached
    Row {
        start: 470,
        end: 472,
        more: 473,
        more_end: 474,
        nothing: 472,
        height: 1,
    },
    // 135: align_or_attached
    Row {
        start: 472,
        end: 474,
        more: 474,
        more_end: 475,
        nothing: 0,
        height: 2,
    },
    // 136: lost_align_attached
    Row {
        start: 474,
        end: 476,
        more: 475,
        more_end: 476,
        nothing: 476,
        height: 1,
    },
    // 137: lost_align_or_attached
    Row {
        start: 476,
        end: 478,
        more: 476,
        more_end: 477,
        nothing: 0,
        height: 2,
    },
    // 138: tail
    Row {
        start: 478,
        end: 480,
        more: 477,
        more_end: 478,
        nothing: 480,
        height: 1,
    },
    // 139: call
    Row {
        start: 480,
        end: 481,
        more: 478,
        more_end: 494,
        nothing: 0,
        height: 5,
    },
    // 140: callee
    Row {
        start: 481,
        end: 484,
        more: 494,
        more_end: 494,
        nothing: 0,
        height: 1,
    },
    // 141: asm
    Row {
        start: 484,
        end: 486,
        more: 494,
        more_end: 494,
        nothing: 0,
        height: 2,
    },
    // 142: asm_text
    Row {
        start: 486,
        end: 487,
        more: 494,
        more_end: 494,
        nothing: 0,
        height: 1,
    },
    // 143: arguments
    Row {
        start: 487,
        end: 488,
        more: 494,
        more_end: 494,
        nothing: 0,
        height: 1,
    },
    // 144: args
    Row {
        start: 488,
        end: 490,
        more: 494,
        more_end: 503,
        nothing: 490,
        height: 3,
    },
    // 145: more_args
    Row {
        start: 490,
        end: 492,
        more: 503,
        more_end: 504,
        nothing: 492,
        height: 1,
    },
    // 146: arg
    Row {
        start: 492,
        end: 493,
        more: 504,
        more_end: 504,
        nothing: 0,
        height: 2,
    },
    // 147: attached
    Row {
        start: 493,
        end: 495,
        more: 504,
        more_end: 505,
        nothing: 495,
        height: 1,
    },
    // 148: attachments
    Row {
        start: 495,
        end: 497,
        more: 505,
        more_end: 513,
        nothing: 497,
        height: 2,
    },
    // 149: mdname
    Row {
        start: 497,
        end: 505,
        more: 513,
        more_end: 513,
        nothing: 0,
        height: 1,
    },
    // 150: mdref
    Row {
        start: 505,
        end: 507,
        more: 513,
        more_end: 513,
        nothing: 0,
        height: 3,
    },
    // 151: mdrefs
    Row {
        start: 507,
        end: 509,
        more: 513,
        more_end: 524,
        nothing: 509,
        height: 4,
    },
    // 152: more_mdrefs
    Row {
        start: 509,
        end: 511,
        more: 524,
        more_end: 525,
        nothing: 511,
        height: 1,
    },
    // 153: node
    Row {
        start: 511,
        end: 514,
        more: 525,
        more_end: 525,
        nothing: 0,
        height: 2,
    },
    // 154: debug_node
    Row {
        start: 514,
        end: 521,
        more: 525,
        more_end: 525,
        nothing: 0,
        height: 1,
    },
    // 155: mdops
    Row {
        start: 521,
        end: 523,
        more: 525,
        more_end: 546,
        nothing: 523,
        height: 5,
    },
    // 156: more_mdops
    Row {
        start: 523,
        end: 525,
        more: 546,
        more_end: 547,
        nothing: 525,
        height: 1,
    },
    // 157: mdop
    Row {
        start: 525,
        end: 529,
        more: 547,
        more_end: 547,
        nothing: 0,
        height: 4,
    },
    // 158: fields
    Row {
        start: 529,
        end: 531,
        more: 547,
        more_end: 550,
        nothing: 531,
        height: 2,
    },
    // 159: more_fields
    Row {
        start: 531,
        end: 533,
        more: 550,
        more_end: 552,
        nothing: 533,
        height: 1,
    },
    // 160: field
    Row {
        start: 533,
        end: 534,
        more: 552,
        more_end: 553,
        nothing: 0,
        height: 1,
    },
    // 161: field_value
    Row {
        start: 534,
        end: 538,
        more: 553,
        more_end: 554,
        nothing: 0,
        height: 4,
    },
    // 162: more_words
    Row {
        start: 538,
        end: 540,
        more: 554,
        more_end: 555,
        nothing: 540,
        height: 1,
    },
];

/// The classes that may begin alternatives.
pub static FIRSTS: [u16; 1802] = [
    // file
    0, 1, 8, 9, 56, 57, 58, 59, 60, 61, 62, 71, 77, 78, 111, 116,
    // item
    111, 116, 1, 0, 77, 78, 71, 9, 56, 57, 58, 59, 60, 61, 62, 8,
    // target
    15,
    // distinct
    81,
    // type_body
    103, 49, 51,
    // body_linkage
    16, 126,
    // data_linkage
    16, 126, 17,
    // outer_linkage
    85, 84,
    // define_linkage
    16, 126, 85,
    // declare_linkage
    84, 85,
    // dso
    18,
    // unnamed
    19,
    // symbol
    84, 85, 16, 17, 126, 18, 19, 20, 63, 64,
    // outer_symbol
    20, 63, 64,
    // inner_symbol
    20, 63, 64,
    // storage
    20,
    // space
    63,
    // variable_tail
    44, 6,
    // align_or_node
    65, 9, 56, 57, 58, 59, 60, 61, 62,
    // lost_groups
    6,
    // alias
    1, 12, 28, 47, 49, 51, 106, 123,
    // head
    1, 4, 12, 18, 21, 22, 23, 24, 28, 47, 49, 51, 65, 76, 82, 99, 106, 123,
    // parameters
    45,
    // params
    1, 12, 28, 47, 49, 51, 106, 123, 55,
    // more_params
    44,
    // param_or_dots
    1, 12, 28, 47, 49, 51, 106, 123, 55,
    // param
    1, 12, 28, 47, 49, 51, 106, 123,
    // name
    1,
    // body
    1, 2, 7, 30, 31, 32, 33, 34, 35, 36, 38, 42, 67, 70, 73, 74, 75, 86, 87, 88, 89, 90, 91, 92,
    94, 97, 104, 105, 107, 109, 113, 114, 118, 120, 122, 128,
    // body_parts
    1, 2, 7, 30, 31, 32, 33, 34, 35, 36, 38, 42, 67, 70, 73, 74, 75, 86, 87, 88, 89, 90, 91, 92,
    94, 97, 104, 105, 107, 109, 113, 114, 118, 120, 122, 128,
    // body_part
    2, 7, 1, 30, 31, 32, 33, 34, 35, 36, 38, 42, 67, 70, 73, 74, 75, 86, 87, 88, 89, 90, 91, 92,
    94, 97, 104, 105, 107, 109, 113, 114, 118, 120, 122, 128,
    // line
    7, 1, 30, 31, 32, 33, 34, 35, 36, 38, 42, 67, 70, 73, 74, 75, 86, 87, 88, 89, 90, 91, 92, 94,
    97, 104, 105, 107, 109, 113, 114, 118, 120, 122, 128,
    // lost_attrs
    4, 21, 22, 23, 24, 65, 76, 82, 99,
    // lost_attr
    21, 99, 76, 65, 22, 23, 24, 82, 4,
    // text_value
    43,
    // function_attrs
    4, 6, 21, 22, 23, 24, 26, 27, 65, 66, 76, 79, 82, 121,
    // function_attr
    6, 4, 21, 22, 23, 24, 26, 27, 66, 76, 79, 82, 121, 65,
    // align_value
    3, 45,
    // call_attrs
    6, 4, 21, 22, 23, 24, 26, 27, 65, 66, 76, 79, 82, 121,
    // group_attrs
    4, 21, 22, 23, 24, 26, 27, 65, 66, 76, 79, 82, 121,
    // group_attr
    4, 21, 22, 23, 24, 26, 27, 66, 76, 79, 82, 121, 65,
    // attr
    4, 21, 27, 66, 121, 22, 76, 79, 23, 26, 24, 82,
    // stack_value
    45, 43,
    // stack_number
    3, 95,
    // unwind_value
    45,
    // unwind_number
    25, 95,
    // number_attr
    76, 79, 22,
    // either_attr
    26, 23,
    // number_or_inside
    95, 46, 45, 12, 14, 15, 16, 17, 18, 19, 20, 21, 22, 23, 24, 25, 26, 27, 28, 29, 30, 31, 32, 33,
    34, 35, 36, 37, 38, 39, 40, 41, 42, 63, 64, 65, 66, 67, 68, 69, 70, 71, 72, 73, 74, 75, 76, 77,
    78, 79, 80, 81, 82, 83, 84, 85, 86, 87, 88, 89, 90, 91, 92, 93, 94, 96, 97, 98, 99, 100, 101,
    102, 103, 104, 105, 106, 107, 108, 109, 110, 111, 112, 113, 114, 115, 116, 117, 118, 119, 120,
    121, 122, 123, 124, 125, 126, 127, 128, 0, 1, 2, 3, 4, 5, 6, 7, 8, 9, 10, 43, 44, 47, 48, 49,
    50, 51, 52, 53, 54, 55, 56, 57, 58, 59, 60, 61, 62,
    // range_attr
    24,
    // enum_attr
    21, 27,
    // parens
    45,
    // inside
    46, 45, 12, 14, 15, 16, 17, 18, 19, 20, 21, 22, 23, 24, 25, 26, 27, 28, 29, 30, 31, 32, 33, 34,
    35, 36, 37, 38, 39, 40, 41, 42, 63, 64, 65, 66, 67, 68, 69, 70, 71, 72, 73, 74, 75, 76, 77, 78,
    79, 80, 81, 82, 83, 84, 85, 86, 87, 88, 89, 90, 91, 92, 93, 94, 95, 96, 97, 98, 99, 100, 101,
    102, 103, 104, 105, 106, 107, 108, 109, 110, 111, 112, 113, 114, 115, 116, 117, 118, 119, 120,
    121, 122, 123, 124, 125, 126, 127, 128, 0, 1, 2, 3, 4, 5, 6, 7, 8, 9, 10, 43, 44, 47, 48, 49,
    50, 51, 52, 53, 54, 55, 56, 57, 58, 59, 60, 61, 62,
    // node_parens
    45,
    // node_inside
    46, 45, 12, 13, 14, 15, 16, 17, 18, 19, 20, 21, 22, 23, 24, 25, 26, 27, 28, 29, 30, 31, 32, 33,
    34, 35, 36, 37, 38, 39, 40, 41, 42, 63, 64, 65, 66, 67, 68, 69, 70, 71, 72, 73, 74, 75, 76, 77,
    78, 79, 80, 81, 82, 83, 84, 85, 86, 87, 88, 89, 90, 91, 92, 93, 94, 95, 96, 97, 98, 99, 100,
    101, 102, 103, 104, 105, 106, 107, 108, 109, 110, 111, 112, 113, 114, 115, 116, 117, 118, 119,
    120, 121, 122, 123, 124, 125, 126, 127, 128, 0, 1, 2, 3, 4, 5, 6, 7, 8, 9, 10, 43, 44, 47, 48,
    49, 50, 51, 52, 53, 54, 55, 56, 57, 58, 59, 60, 61, 62, 11,
    // plain
    3, 4, 5, 0, 1, 2, 6, 7, 8, 10, 9, 56, 57, 58, 59, 60, 61, 62, 43, 44, 47, 48, 49, 50, 51, 52,
    53, 54, 55,
    // mark
    43, 44, 47, 48, 49, 50, 51, 52, 53, 54, 55,
    // most_words
    63, 64, 65, 66, 67, 68, 69, 70, 71, 72, 73, 74, 75, 76, 77, 78, 79, 80, 81, 82, 83, 84, 85, 86,
    87, 88, 89, 90, 91, 92, 93, 94, 96, 97, 98, 99, 100, 101, 102, 103, 104, 105, 106, 107, 108,
    109, 110, 111, 112, 113, 114, 115, 116, 117, 118, 119, 120, 121, 122, 123, 124, 125, 126, 127,
    128, 12, 14, 15, 16, 17, 18, 19, 20, 21, 22, 23, 24, 25, 26, 27, 28, 29, 30, 31, 32, 33, 34,
    35, 36, 37, 38, 39, 40, 41, 42,
    // any_word
    12, 14, 15, 16, 17, 18, 19, 20, 21, 22, 23, 24, 25, 26, 27, 28, 29, 30, 31, 32, 33, 34, 35, 36,
    37, 38, 39, 40, 41, 42, 63, 64, 65, 66, 67, 68, 69, 70, 71, 72, 73, 74, 75, 76, 77, 78, 79, 80,
    81, 82, 83, 84, 85, 86, 87, 88, 89, 90, 91, 92, 93, 94, 96, 97, 98, 99, 100, 101, 102, 103,
    104, 105, 106, 107, 108, 109, 110, 111, 112, 113, 114, 115, 116, 117, 118, 119, 120, 121, 122,
    123, 124, 125, 126, 127, 128, 95,
    // node_word
    12, 14, 15, 16, 17, 18, 19, 20, 21, 22, 23, 24, 25, 26, 27, 28, 29, 30, 31, 32, 33, 34, 35, 36,
    37, 38, 39, 40, 41, 42, 63, 64, 65, 66, 67, 68, 69, 70, 71, 72, 73, 74, 75, 76, 77, 78, 79, 80,
    81, 82, 83, 84, 85, 86, 87, 88, 89, 90, 91, 92, 93, 94, 95, 96, 97, 98, 99, 100, 101, 102, 103,
    104, 105, 106, 107, 108, 109, 110, 111, 112, 113, 114, 115, 116, 117, 118, 119, 120, 121, 122,
    123, 124, 125, 126, 127, 128, 13,
    // type
    123, 12, 106, 28, 47, 51, 1, 49,
    // solid
    12, 106, 28, 47, 51, 1, 49,
    // flat
    12, 106, 28, 47, 51, 1,
    // angle_type
    3, 125, 49,
    // types
    1, 12, 28, 47, 49, 51, 106, 123,
    // more_types
    44,
    // called_type
    1, 12, 28, 47, 49, 51, 106, 123,
    // signature
    45,
    // argument_types
    1, 12, 28, 47, 49, 51, 106, 123, 55,
    // more_argument_types
    44,
    // type_or_dots
    1, 12, 28, 47, 49, 51, 106, 123, 55,
    // tconst
    1, 12, 28, 47, 49, 51, 106, 123,
    // const
    3, 29, 101, 47, 49, 51, 5, 112, 0, 72, 30, 118, 31, 90,
    // const_angle
    49, 1, 12, 28, 47, 51, 106, 123,
    // const_brace
    50, 1, 12, 28, 47, 49, 51, 106, 123,
    // const_empty
    52, 0, 3, 5, 29, 30, 31, 47, 49, 51, 72, 90, 101, 112, 118,
    // const_braced
    0, 3, 5, 29, 30, 31, 47, 49, 51, 72, 90, 101, 112, 118, 44, 50,
    // const_cast
    30, 118,
    // const_sum
    31,
    // tconsts
    1, 12, 28, 47, 49, 51, 106, 123,
    // more_tconsts
    44,
    // in_range
    93,
    // inst
    30, 31, 32, 33, 34, 35, 36, 38, 42, 73, 74, 86, 88, 89, 91, 92, 104, 107, 109, 114, 118, 120,
    122, 128, 67, 97, 113, 70, 75, 90, 87, 94, 105,
    // simple
    107, 73, 114, 92, 120, 31, 33, 34, 35, 36, 104, 91, 30, 38, 118, 128, 88, 86, 32, 109, 89, 122,
    42, 74,
    // value
    1, 3, 29, 101, 47, 49, 51, 5, 112, 0, 72, 30, 118, 31, 90,
    // typed
    1, 12, 28, 47, 49, 51, 106, 123,
    // pair
    1, 12, 28, 47, 49, 51, 106, 123,
    // ret
    123, 1, 12, 28, 47, 49, 51, 106,
    // br
    96, 1, 12, 28, 47, 49, 51, 106, 123,
    // cases
    1, 12, 28, 47, 49, 51, 106, 123,
    // labels
    96,
    // more_labels
    44,
    // sum
    31, 33,
    // wraps
    102, 100,
    // nsw
    100,
    // lost_wraps
    102, 100,
    // lost_nsw
    100,
    // lost_nuw
    102,
    // quotient
    34,
    // lost_exact
    83,
    // bits
    35, 36,
    // lost_disjoint
    80,
    // lost_samesign
    108,
    // predicate
    37,
    // cast
    30, 38,
    // nneg
    98,
    // alloca_tail
    44,
    // alloca_part
    1, 12, 28, 47, 49, 51, 106, 123, 65, 63, 9, 56, 57, 58, 59, 60, 61, 62,
    // alloca_rest
    44,
    // alloca_rest_part
    65, 63, 9, 56, 57, 58, 59, 60, 61, 62,
    // alloca_end
    44,
    // alloca_end_part
    63, 9, 56, 57, 58, 59, 60, 61, 62,
    // load
    1, 12, 28, 47, 49, 51, 106, 123, 124, 69,
    // atomic_load
    1, 12, 28, 47, 49, 51, 106, 123,
    // store
    1, 12, 28, 47, 49, 51, 106, 123, 124, 69,
    // atomic_store
    1, 12, 28, 47, 49, 51, 106, 123,
    // volatile
    124,
    // rmw_kind
    39, 31, 36, 104,
    // address_and_value
    1, 12, 28, 47, 49, 51, 106, 123,
    // lost_weak
    126,
    // exchange
    1, 12, 28, 47, 49, 51, 106, 123,
    // exchange_order
    40, 115,
    // order
    40, 115,
    // scope
    115,
    // ordering
    40,
    // gep_flags
    41, 102,
    // gep_flag
    41, 102,
    // more_indices
    44,
    // index_or_node
    1, 12, 28, 47, 49, 51, 106, 123, 9, 56, 57, 58, 59, 60, 61, 62,
    // more_places
    44,
    // place_or_node
    3, 9, 56, 57, 58, 59, 60, 61, 62,
    // entry
    47,
    // more_entries
    44,
    // entry_or_node
    47, 9, 56, 57, 58, 59, 60, 61, 62,
    // align_attached
    44,
    // align_or_attached
    65, 9, 56, 57, 58, 59, 60, 61, 62,
    // lost_align_attached
    44,
    // lost_align_or_attached
    65, 9, 56, 57, 58, 59, 60, 61, 62,
    // tail
    42,
    // call
    1, 4, 12, 21, 22, 23, 24, 28, 47, 49, 51, 65, 76, 82, 99, 106, 123,
    // callee
    0, 1, 68,
    // asm
    110, 4,
    // asm_text
    4,
    // arguments
    45,
    // args
    1, 12, 28, 47, 49, 51, 106, 123,
    // more_args
    44,
    // arg
    1, 12, 28, 47, 49, 51, 106, 123,
    // attached
    44,
    // attachments
    9, 56, 57, 58, 59, 60, 61, 62,
    // mdname
    9, 56, 57, 61, 62, 58, 59, 60,
    // mdref
    8, 9, 53, 56, 57, 58, 59, 60, 61, 62,
    // mdrefs
    8, 9, 53, 56, 57, 58, 59, 60, 61, 62,
    // more_mdrefs
    44,
    // node
    53, 56, 57, 58, 59, 60, 61, 62, 9,
    // debug_node
    56, 57, 61, 62, 58, 59, 60,
    // mdops
    1, 8, 9, 10, 12, 28, 47, 49, 51, 53, 56, 57, 58, 59, 60, 61, 62, 101, 106, 123,
    // more_mdops
    44,
    // mdop
    101, 10, 8, 9, 53, 56, 57, 58, 59, 60, 61, 62, 1, 12, 28, 47, 49, 51, 106, 123,
    // fields
    2,
    // more_fields
    44,
    // field
    2,
    // field_value
    3, 4, 12, 13, 14, 15, 16, 17, 18, 19, 20, 21, 22, 23, 24, 25, 26, 27, 28, 29, 30, 31, 32, 33,
    34, 35, 36, 37, 38, 39, 40, 41, 42, 63, 64, 65, 66, 67, 68, 69, 70, 71, 72, 73, 74, 75, 76, 77,
    78, 79, 80, 81, 82, 83, 84, 85, 86, 87, 88, 89, 90, 91, 92, 93, 94, 95, 96, 97, 98, 99, 100,
    101, 102, 103, 104, 105, 106, 107, 108, 109, 110, 111, 112, 113, 114, 115, 116, 117, 118, 119,
    120, 121, 122, 123, 124, 125, 126, 127, 128, 8, 9, 53, 56, 57, 58, 59, 60, 61, 62,
    // more_words
    54,
];

/// The classes that might go on with rules.
pub static MORES: [u16; 555] = [
    // file
    0, 1, 4, 6, 8, 9, 19, 21, 22, 23, 24, 26, 27, 43, 44, 45, 56, 57, 58, 59, 60, 61, 62, 63, 65,
    66, 71, 76, 77, 78, 79, 82, 111, 116, 121,
    // item
    4, 6, 19, 21, 22, 23, 24, 26, 27, 43, 44, 45, 63, 65, 66, 76, 79, 82, 121,
    // distinct
    81,
    // define_linkage
    16, 85, 126,
    // declare_linkage
    84, 85,
    // dso
    18,
    // unnamed
    19,
    // symbol
    6, 44, 63,
    // outer_symbol
    6, 44, 63,
    // inner_symbol
    6, 44,
    // space
    63,
    // variable_tail
    6, 44,
    // align_or_node
    6, 44,
    // lost_groups
    6,
    // head
    19, 63,
    // parameters
    19, 63,
    // params
    1, 4, 12, 21, 22, 23, 24, 28, 43, 44, 47, 49, 51, 55, 63, 65, 76, 82, 99, 106, 123,
    // more_params
    1, 4, 21, 22, 23, 24, 43, 44, 63, 65, 76, 82, 99,
    // param_or_dots
    1, 4, 21, 22, 23, 24, 43, 44, 63, 65, 76, 82, 99,
    // param
    1, 4, 21, 22, 23, 24, 43, 63, 65, 76, 82, 99,
    // name
    1,
    // body
    1, 2, 4, 6, 7, 21, 22, 23, 24, 26, 27, 30, 31, 32, 33, 34, 35, 36, 38, 42, 43, 44, 45, 63, 65,
    66, 67, 70, 73, 74, 75, 76, 79, 82, 86, 87, 88, 89, 90, 91, 92, 94, 97, 104, 105, 107, 109,
    113, 114, 118, 120, 121, 122, 128,
    // body_parts
    1, 2, 4, 6, 7, 21, 22, 23, 24, 26, 27, 30, 31, 32, 33, 34, 35, 36, 38, 42, 43, 44, 45, 63, 65,
    66, 67, 70, 73, 74, 75, 76, 79, 82, 86, 87, 88, 89, 90, 91, 92, 94, 97, 104, 105, 107, 109,
    113, 114, 118, 120, 121, 122, 128,
    // body_part
    4, 6, 21, 22, 23, 24, 26, 27, 43, 44, 45, 63, 65, 66, 76, 79, 82, 121,
    // line
    4, 6, 21, 22, 23, 24, 26, 27, 43, 44, 45, 63, 65, 66, 76, 79, 82, 121,
    // lost_attrs
    4, 21, 22, 23, 24, 43, 65, 76, 82, 99,
    // lost_attr
    43,
    // text_value
    43,
    // function_attrs
    4, 6, 21, 22, 23, 24, 26, 27, 43, 45, 65, 66, 76, 79, 82, 121,
    // function_attr
    43, 45,
    // call_attrs
    4, 6, 21, 22, 23, 24, 26, 27, 43, 45, 65, 66, 76, 79, 82, 121,
    // group_attrs
    4, 21, 22, 23, 24, 26, 27, 43, 45, 65, 66, 76, 79, 82, 121,
    // group_attr
    43, 45,
    // attr
    43, 45,
    // unwind_value
    45,
    // type
    63,
    // solid
    63,
    // flat
    63,
    // types
    1, 12, 28, 44, 47, 49, 51, 63, 106, 123,
    // more_types
    44, 63,
    // called_type
    45, 63,
    // signature
    45,
    // argument_types
    1, 12, 28, 44, 47, 49, 51, 55, 63, 106, 123,
    // more_argument_types
    44, 63,
    // type_or_dots
    44, 63,
    // tconsts
    1, 12, 28, 44, 47, 49, 51, 106, 123,
    // more_tconsts
    44,
    // in_range
    93,
    // inst
    4, 6, 21, 22, 23, 24, 26, 27, 43, 44, 45, 63, 65, 66, 76, 79, 82, 121,
    // simple
    4, 6, 21, 22, 23, 24, 26, 27, 43, 45, 63, 65, 66, 76, 79, 82, 121,
    // cases
    1, 12, 28, 47, 49, 51, 106, 123,
    // labels
    44, 96,
    // more_labels
    44,
    // wraps
    100, 102,
    // nsw
    100,
    // lost_wraps
    100, 102,
    // lost_nsw
    100,
    // lost_nuw
    102,
    // lost_exact
    83,
    // lost_disjoint
    80,
    // lost_samesign
    108,
    // nneg
    98,
    // alloca_tail
    44,
    // alloca_part
    44,
    // alloca_rest
    44,
    // alloca_rest_part
    44,
    // alloca_end
    44,
    // alloca_end_part
    44,
    // load
    44,
    // atomic_load
    44,
    // store
    44,
    // atomic_store
    44,
    // volatile
    124,
    // lost_weak
    126,
    // exchange
    44,
    // scope
    115,
    // gep_flags
    41, 102,
    // more_indices
    44,
    // index_or_node
    44,
    // more_places
    44,
    // place_or_node
    44,
    // more_entries
    44,
    // entry_or_node
    44,
    // align_attached
    44,
    // align_or_attached
    44,
    // lost_align_attached
    44,
    // lost_align_or_attached
    44,
    // tail
    42,
    // call
    4, 6, 21, 22, 23, 24, 26, 27, 43, 45, 65, 66, 76, 79, 82, 121,
    // args
    1, 12, 28, 44, 47, 49, 51, 106, 123,
    // more_args
    44,
    // attached
    44,
    // attachments
    9, 56, 57, 58, 59, 60, 61, 62,
    // mdrefs
    8, 9, 44, 53, 56, 57, 58, 59, 60, 61, 62,
    // more_mdrefs
    44,
    // mdops
    1, 8, 9, 10, 12, 28, 44, 47, 49, 51, 53, 56, 57, 58, 59, 60, 61, 62, 101, 106, 123,
    // more_mdops
    44,
    // fields
    2, 44, 54,
    // more_fields
    44, 54,
    // field
    54,
    // field_value
    54,
    // more_words
    54,
];

/// The grammar.
pub fn llvm() -> Grammar<'static>
    ensures { grammar_of result ≡ llvm }
{
    Grammar {
        symbols: &SYMBOLS,
        alternatives: &ALTERNATIVES,
        rows: &ROWS,
        firsts: &FIRSTS,
        mores: &MORES,
    }
}
