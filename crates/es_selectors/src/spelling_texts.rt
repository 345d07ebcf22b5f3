/// Texts and their readings, written from esquery's grammar with what the productions of `Spelling` add to it and take
/// from it. ` -> ` parts the two, `Unread` is no reading, and the tests say how a reading is told. A line that begins
/// with `# ` is a heading.
pub const SPELLING_TEXTS: &str = r##"# Atoms
* -> *
Identifier -> Identifier
identifier -> Identifier
iDENTIFIER -> Identifier
templateelement -> TemplateElement
Identifiers -> nothing
Ident -> nothing
x -> nothing
7 -> nothing
_a$9 -> nothing
.f -> in f
.f.g -> in f/g
.f.g.h -> in f/g&in h
.f.g.h.i -> in f/g&in h/i
.0 -> in 0
.fIdentifier -> in fIdentifier
f.g -> nothing&in g
. -> Unread
.f. -> Unread
..f -> Unread
.f.* -> Unread
:statement -> statement
:declaration -> declaration
:expression -> expression
:pattern -> pattern
:function -> function
:statements -> statement&nothing
:Statement -> Unread
:scope -> Unread
: -> Unread
: function -> Unread
:first-child -> nth 1
:last-child -> nth-last 1
:nth-child(1) -> nth 1
:nth-child( 12 ) -> nth 12
:nth-child(0) -> nth 0
:nth-child(007) -> nth 7
:nth-last-child(2) -> nth-last 2
:nth-child -> Unread
:nth-child() -> Unread
:nth-child(-1) -> Unread
:nth-child(+1) -> Unread
:nth-child(2n) -> Unread
:nth-child(1 2) -> Unread
:nth-child (1) -> Unread
:first-child(1) -> Unread
:not(*) -> not(*)
:is(*) -> is(*)
:matches(*) -> is(*)
:has(*) -> has(*)
:not( * ) -> not(*)
:not(*, Literal) -> not(* | Literal)
:has(* > Literal) -> has(* > Literal)
:not(:not(:is(:has(*)))) -> not(not(is(has(*))))
:not(.f, :is([a], *)[b]) -> not(in f | is([a] | *)&[b])
:not() -> Unread
:not -> Unread
:not* -> Unread
:not(* -> Unread
:not(*)) -> Unread
:not (*) -> Unread
:not(*,) -> Unread
:has(> *) -> Unread
:any(*) -> Unread
(*) -> Unread
#a -> Unread
é -> Unread
Identifiér -> Unread
!* -> Unread
 -> Unread
# Attributes
[a] -> [a]
[a.b] -> [a.b]
[a.b.0.length] -> [a.b.0.length]
[0] -> [0]
[_$9] -> [_$9]
[ a] -> Unread
[a ] -> Unread
[] -> Unread
[a -> Unread
a] -> Unread
[a]] -> Unread
[a.] -> Unread
[.a] -> Unread
[a..b] -> Unread
[a .b] -> Unread
[a-b] -> Unread
[*] -> Unread
[a=v] -> [a = «v»]
[a.b=v] -> [a.b = «v»]
[a!=v] -> [a != «v»]
[a = v] -> [a = «v»]
[a!= v] -> [a != «v»]
[a =v] -> [a = «v»]
[a=v ] -> Unread
[a!v] -> Unread
[a ! = v] -> Unread
[a==v] -> Unread
[a=!v] -> Unread
[a=v=w] -> Unread
[a=v<w] -> Unread
[a=] -> Unread
[a= -> Unread
[a=v -> Unread
[a=1] -> [a = «1»]
[a=-1] -> [a = «-1»]
[a=v.w] -> [a = «v.w»]
[a=+] -> [a = «+»]
[a=v,w] -> [a = «v,w»]
[a=(v)] -> [a = «(v)»]
[a=[b] -> [a = «[b»]
[a=b\c] -> [a = «b\c»]
[a=é] -> [a = «é»]
[a=v w] -> Unread
[a=v'w'] -> Unread
[a='v'] -> [a = «v»]
[a="v"] -> [a = «v»]
[a=''] -> [a = «»]
[a=""] -> [a = «»]
[a='v w'] -> [a = «v w»]
[a=" v "] -> [a = « v »]
[a="it's"] -> [a = «it's»]
[a='"'] -> [a = «"»]
[a=']'] -> [a = «]»]
[a!='v'] -> [a != «v»]
[a='\''] -> [a = «'»]
[a="\""] -> [a = «"»]
[a='\\'] -> [a = «\»]
[a='\n'] -> [a = «n»]
[a="b\c"] -> [a = «bc»]
[a="b␊c"] -> [a = «b␊c»]
[a='v"] -> Unread
[a='v] -> Unread
[a='v\'] -> Unread
[a='v'w] -> Unread
[a='v' ] -> Unread
[a 'v'] -> Unread
[a=type] -> [a = «type»]
[a=typeof] -> [a = «typeof»]
[a=xtype(y)] -> [a = «xtype(y)»]
[a=Type(y)] -> [a = «Type(y)»]
[a='type(y)'] -> [a = «type(y)»]
[a=type(] -> Unread
[a=type(string)] -> Unread
[a!=type(string)] -> Unread
[a=/x/] -> Unread
[a=/x/g] -> Unread
[a=//] -> Unread
[a=/x y/] -> Unread
[a=/] -> [a = «/»]
[a=/x] -> [a = «/x»]
[a=x/y/] -> [a = «x/y/»]
[a='/x/'] -> [a = «/x/»]
[a<3] -> [a < 3]
[a<=3] -> [a <= 3]
[a>3] -> [a > 3]
[a>=3] -> [a >= 3]
[a.length < 12] -> [a.length < 12]
[a>=03] -> [a >= 3]
[a < = 3] -> Unread
[a<] -> Unread
[a<3 ] -> Unread
[a<v] -> Unread
[a<3v] -> Unread
[a<'3'] -> Unread
[a<-3] -> Unread
[a<3.5] -> Unread
# Compounds
Identifier[name] -> Identifier&[name]
[a][b] -> [a]&[b]
** -> *&*
Identifier* -> Identifier&*
*Identifier -> *&Identifier
.f[a]:function:first-child -> in f&[a]&function&nth 1
:function:not(.f)[a=v] -> function&not(in f)&[a = «v»]
# Chains
Program Literal -> Program / Literal
Program   Literal -> Program / Literal
Program␉Literal -> Program / Literal
Program⍽Literal -> Program / Literal
Program␊Literal -> Unread
Program>Literal -> Program > Literal
Program > Literal -> Program > Literal
Program> Literal -> Program > Literal
Program  >Literal -> Program > Literal
Program+Literal -> Program + Literal
Program + Literal -> Program + Literal
Program~Literal -> Program ~ Literal
Program ~ Literal -> Program ~ Literal
* > .f + [a] ~ :function * -> * > in f + [a] ~ function / *
Identifier .f -> Identifier / in f
.f .g -> in f / in g
.f . g -> Unread
.f Identifier -> in f / Identifier
> Literal -> Unread
+ Literal -> Unread
~ Literal -> Unread
Program > -> Unread
Program > > Literal -> Unread
Program >> Literal -> Unread
Program + ~ Literal -> Unread
Program || Literal -> Unread
Program!>Literal -> Unread
Program, Literal -> Program | Literal
Program,Literal -> Program | Literal
Program , Literal -> Program | Literal
Program,Program -> Program | Program
Program > Literal, .f * -> Program > Literal | in f / *
Program, -> Unread
, Program -> Unread
Program,,Literal -> Unread
, -> Unread
Program; Literal -> Unread
# The end
Program:exit -> exit Program
*:exit -> exit *
[a]:exit -> exit [a]
:function:exit -> exit function
:not(*):exit -> exit not(*)
Program > Literal:exit -> exit Program > Literal
Program, Literal:exit -> exit Program | Literal
Program:exit, Literal -> Unread
Program:exit Literal -> Unread
Program:exit > Literal -> Unread
Program:exit:exit -> Unread
Program:exit* -> Unread
Program:exits -> Unread
Program:Exit -> Unread
Program :exit -> Unread
:exit -> Unread
:not(:exit) -> Unread
:not(*:exit) -> Unread
:has(*:exit) -> Unread
␠Program -> Unread
Program␠ -> Unread
Program:exit␠ -> Unread
␠ -> Unread"##;
