/// Statements and declarations: ECMA-262, 14, with 12.9 and 11.2.1; programs, and spans.
pub const STATEMENT_TEXTS: &str = r##"# 12.9, Automatic Semicolon Insertion
script a;b -> a; b;
script a␊b -> a; b;
script a␍b -> a; b;
script a␤b -> a; b;
script a/*␊*/b -> a; b;
script a/**/b -> Unread 0
script a//b␊c -> a; c;
script a b -> Unread 0
script a;;b -> a; EmptyStatement b;
script a} -> Unread 1
script a@ -> Unread 0
script a␊@ -> Unread 0
script a;@ -> Unread 2
script var a␊var b -> VariableDeclaration:var([VariableDeclarator(a _)]) VariableDeclaration:var([VariableDeclarator(b _)])
script var a var b -> Unread 0
script a␊(b) -> CallExpression(a [b]);
script a␊[b] -> MemberExpression:computed(a b);
script a␊+b -> BinaryExpression:+(a b);
script a␊b␊c d -> Unread 4
script if(a)b else c -> Unread 0
script if(a)b␊else c -> IfStatement(a b; c;)
script for(a␊b␊c); -> Unread 0
script {a}b -> BlockStatement([a;]) b;
script {a}␊b -> BlockStatement([a;]) b;
# 14.2, Block
script {} -> BlockStatement([])
script {a} -> BlockStatement([a;])
script {a;b} -> BlockStatement([a; b;])
script {a␊b} -> BlockStatement([a; b;])
script {{}} -> BlockStatement([BlockStatement([])])
script {;} -> BlockStatement([EmptyStatement])
script {a b} -> Unread 0
script { -> Unread 0
script } -> Unread 0
script {let a;const b=c;class D{}function e(){}} -> BlockStatement([VariableDeclaration:let([VariableDeclarator(a _)]) VariableDeclaration:const([VariableDeclarator(b c)]) ClassDeclaration(D _ ClassBody([])) FunctionDeclaration(e [] BlockStatement([]))])
# 14.3.1, Let and Const Declarations
script let a -> VariableDeclaration:let([VariableDeclarator(a _)])
script let a=b -> VariableDeclaration:let([VariableDeclarator(a b)])
script let a,b=c -> VariableDeclaration:let([VariableDeclarator(a _) VariableDeclarator(b c)])
script let␊a -> VariableDeclaration:let([VariableDeclarator(a _)])
script let [a]=b -> VariableDeclaration:let([VariableDeclarator(ArrayPattern([a]) b)])
script let[a]=b -> VariableDeclaration:let([VariableDeclarator(ArrayPattern([a]) b)])
script let {a}=b -> VariableDeclaration:let([VariableDeclarator(ObjectPattern([Property:init:shorthand(a a)]) b)])
script let [a] -> Unread 0
script let {a} -> Unread 0
script let a=b,[c] -> Unread 0
script let -> Unread 0
script let a, -> Unread 0
script let a b -> Unread 0
script let 1 -> Unread 0
script let let=a -> Unread 0
script const a=b -> VariableDeclaration:const([VariableDeclarator(a b)])
script const a=b,c=d -> VariableDeclaration:const([VariableDeclarator(a b) VariableDeclarator(c d)])
script const {a}=b,[c]=d -> VariableDeclaration:const([VariableDeclarator(ObjectPattern([Property:init:shorthand(a a)]) b) VariableDeclarator(ArrayPattern([c]) d)])
script const [a] -> Unread 0
script const a -> VariableDeclaration:const([VariableDeclarator(a _)])
script if(a)let b -> Unread 0
script if(a)const b=c -> Unread 0
script while(a)let␊b -> Unread 0
# 14.3.2, Variable Statement
script var a -> VariableDeclaration:var([VariableDeclarator(a _)])
script var a=b,c -> VariableDeclaration:var([VariableDeclarator(a b) VariableDeclarator(c _)])
script var a␊=b -> VariableDeclaration:var([VariableDeclarator(a b)])
script var [a]=b -> VariableDeclaration:var([VariableDeclarator(ArrayPattern([a]) b)])
script var {a,b:c,...d}=e -> VariableDeclaration:var([VariableDeclarator(ObjectPattern([Property:init:shorthand(a a) Property:init(b c) RestElement(d)]) e)])
script var await -> VariableDeclaration:var([VariableDeclarator(await _)])
module var await -> Unread 0
script var -> Unread 0
script var a=b, -> Unread 0
script var if -> Unread 0
script var a.b -> Unread 0
script var (a)=b -> Unread 0
script var a=b=c -> VariableDeclaration:var([VariableDeclarator(a AssignmentExpression:=(b c))])
script var a=b,c -> VariableDeclaration:var([VariableDeclarator(a b) VariableDeclarator(c _)])
script if(a)var b -> IfStatement(a VariableDeclaration:var([VariableDeclarator(b _)]) _)
# 14.3.3, Destructuring Binding Patterns
script var []=a -> VariableDeclaration:var([VariableDeclarator(ArrayPattern([]) a)])
script var [,]=a -> VariableDeclaration:var([VariableDeclarator(ArrayPattern([-]) a)])
script var [a,,b]=c -> VariableDeclaration:var([VariableDeclarator(ArrayPattern([a - b]) c)])
script var [a,]=b -> VariableDeclaration:var([VariableDeclarator(ArrayPattern([a]) b)])
script var [a=b]=c -> VariableDeclaration:var([VariableDeclarator(ArrayPattern([AssignmentPattern(a b)]) c)])
script var [[a],{b}]=c -> VariableDeclaration:var([VariableDeclarator(ArrayPattern([ArrayPattern([a]) ObjectPattern([Property:init:shorthand(b b)])]) c)])
script var [[a]=b]=c -> VariableDeclaration:var([VariableDeclarator(ArrayPattern([AssignmentPattern(ArrayPattern([a]) b)]) c)])
script var [...a]=b -> VariableDeclaration:var([VariableDeclarator(ArrayPattern([RestElement(a)]) b)])
script var [a,...[b]]=c -> VariableDeclaration:var([VariableDeclarator(ArrayPattern([a RestElement(ArrayPattern([b]))]) c)])
script var [...{a}]=b -> VariableDeclaration:var([VariableDeclarator(ArrayPattern([RestElement(ObjectPattern([Property:init:shorthand(a a)]))]) b)])
script var [...a,]=b -> Unread 0
script var [...a,b]=c -> Unread 0
script var [...a=b]=c -> Unread 0
script var [a.b]=c -> Unread 0
script var [(a)]=b -> Unread 0
script var {}=a -> VariableDeclaration:var([VariableDeclarator(ObjectPattern([]) a)])
script var {a,}=b -> VariableDeclaration:var([VariableDeclarator(ObjectPattern([Property:init:shorthand(a a)]) b)])
script var {a=b}=c -> VariableDeclaration:var([VariableDeclarator(ObjectPattern([Property:init:shorthand(a AssignmentPattern(a b))]) c)])
script var {a:b}=c -> VariableDeclaration:var([VariableDeclarator(ObjectPattern([Property:init(a b)]) c)])
script var {a:b=c}=d -> VariableDeclaration:var([VariableDeclarator(ObjectPattern([Property:init(a AssignmentPattern(b c))]) d)])
script var {a:[b],c:{d}}=e -> VariableDeclaration:var([VariableDeclarator(ObjectPattern([Property:init(a ArrayPattern([b])) Property:init(c ObjectPattern([Property:init:shorthand(d d)]))]) e)])
script var {a:[b]=c}=d -> VariableDeclaration:var([VariableDeclarator(ObjectPattern([Property:init(a AssignmentPattern(ArrayPattern([b]) c))]) d)])
script var {[a]:b}=c -> VariableDeclaration:var([VariableDeclarator(ObjectPattern([Property:init:computed(a b)]) c)])
script var {"a":b}=c -> VariableDeclaration:var([VariableDeclarator(ObjectPattern([Property:init("a"=a b)]) c)])
script var {1:a}=b -> VariableDeclaration:var([VariableDeclarator(ObjectPattern([Property:init(1 a)]) b)])
script var {if:a}=b -> VariableDeclaration:var([VariableDeclarator(ObjectPattern([Property:init(if a)]) b)])
script var {...a}=b -> VariableDeclaration:var([VariableDeclarator(ObjectPattern([RestElement(a)]) b)])
script var {if}=a -> Unread 0
script var {...{a}}=b -> Unread 0
script var {...a,}=b -> Unread 0
script var {...a=b}=c -> Unread 0
script var {a:b.c}=d -> Unread 0
script var {a:(b)}=c -> Unread 0
script var {a.b}=c -> Unread 0
script var {a(){}}=b -> Unread 0
script var {get a}=b -> Unread 0
script var {,}=a -> Unread 0
# 14.4, Empty Statement
script ; -> EmptyStatement
script ;; -> EmptyStatement EmptyStatement
# 14.5, Expression Statement
script a,b; -> SequenceExpression([a b]);
script (function(){}) -> FunctionExpression(_ [] BlockStatement([]));
script (class{}) -> ClassExpression(_ _ ClassBody([]));
script function(){} -> Unread 0
script class{} -> Unread 0
script async function(){} -> Unread 0
script async␊function a(){} -> async; FunctionDeclaration(a [] BlockStatement([]))
script {a:1} -> BlockStatement([LabeledStatement(a 1;)])
script {a:1,b:2} -> Unread 0
script a=function(){} -> AssignmentExpression:=(a FunctionExpression(_ [] BlockStatement([])));
script let␊[a]=b -> VariableDeclaration:let([VariableDeclarator(ArrayPattern([a]) b)])
script async␊a -> async; a;
script async a -> Unread 0
# 14.6, The `if` Statement
script if(a)b -> IfStatement(a b; _)
script if(a);else; -> IfStatement(a EmptyStatement EmptyStatement)
script if(a){}else{} -> IfStatement(a BlockStatement([]) BlockStatement([]))
script if(a)if(b)c;else d -> IfStatement(a IfStatement(b c; d;) _)
script if(a)b;else if(c)d;else e -> IfStatement(a b; IfStatement(c d; e;))
script if(a,b); -> IfStatement(SequenceExpression([a b]) EmptyStatement _)
script if a -> Unread 0
script if() -> Unread 0
script if(); -> Unread 0
script if(a) -> Unread 0
script if(a)b;else -> Unread 0
script else -> Unread 0
script if(a)function b(){} -> Unread 0
script if(a)class b{} -> Unread 0
# 14.7.2 and 14.7.3, `do` and `while`
script do a;while(b) -> DoWhileStatement(a; b)
script do a␊while(b) -> DoWhileStatement(a; b)
script do{}while(a);b -> DoWhileStatement(BlockStatement([]) a) b;
script do{}while(a)b -> DoWhileStatement(BlockStatement([]) a) b;
script do;while(a); -> DoWhileStatement(EmptyStatement a)
script do a while(b) -> Unread 0
script do{}while() -> Unread 0
script do{} -> Unread 0
script do a;b;while(c) -> Unread 0
script while(a)b -> WhileStatement(a b;)
script while(a); -> WhileStatement(a EmptyStatement)
script while(a){b} -> WhileStatement(a BlockStatement([b;]))
script while(a) -> Unread 0
script while()a -> Unread 0
# 14.7.4, The `for` Statement
script for(;;); -> ForStatement(_ _ _ EmptyStatement)
script for(;;){} -> ForStatement(_ _ _ BlockStatement([]))
script for(a;;); -> ForStatement(a _ _ EmptyStatement)
script for(;a;); -> ForStatement(_ a _ EmptyStatement)
script for(;;a); -> ForStatement(_ _ a EmptyStatement)
script for(a;b;c)d -> ForStatement(a b c d;)
script for(a,b;c,d;e,f); -> ForStatement(SequenceExpression([a b]) SequenceExpression([c d]) SequenceExpression([e f]) EmptyStatement)
script for(var a;;); -> ForStatement(VariableDeclaration:var([VariableDeclarator(a _)]) _ _ EmptyStatement)
script for(var a=1,b;c;d); -> ForStatement(VariableDeclaration:var([VariableDeclarator(a 1) VariableDeclarator(b _)]) c d EmptyStatement)
script for(let a=b;;); -> ForStatement(VariableDeclaration:let([VariableDeclarator(a b)]) _ _ EmptyStatement)
script for(let a,b=c;;); -> ForStatement(VariableDeclaration:let([VariableDeclarator(a _) VariableDeclarator(b c)]) _ _ EmptyStatement)
script for(const a=b;;); -> ForStatement(VariableDeclaration:const([VariableDeclarator(a b)]) _ _ EmptyStatement)
script for(let [a]=b;;); -> ForStatement(VariableDeclaration:let([VariableDeclarator(ArrayPattern([a]) b)]) _ _ EmptyStatement)
script for(const {a}=b;;); -> ForStatement(VariableDeclaration:const([VariableDeclarator(ObjectPattern([Property:init:shorthand(a a)]) b)]) _ _ EmptyStatement)
script for(let [a];;); -> Unread 0
script for(let of;;); -> ForStatement(VariableDeclaration:let([VariableDeclarator(of _)]) _ _ EmptyStatement)
script for([a]=b;;); -> ForStatement(AssignmentExpression:=(ArrayPattern([a]) b) _ _ EmptyStatement)
script for({a}=b;;); -> ForStatement(AssignmentExpression:=(ObjectPattern([Property:init:shorthand(a a)]) b) _ _ EmptyStatement)
script for({a:b}.c;;); -> ForStatement(MemberExpression(ObjectExpression([Property:init(a b)]) c) _ _ EmptyStatement)
script for(;;) -> Unread 0
script for(;); -> Unread 0
script for(a;b); -> Unread 0
script for(a;b;c;d); -> Unread 0
script for(;;;); -> Unread 0
script for(let a b;;); -> Unread 0
script for(); -> Unread 0
# 14.7.5, `for` and `in`
script for(a in b)c -> ForInStatement(a b c;)
script for(a.b in c); -> ForInStatement(MemberExpression(a b) c EmptyStatement)
script for(a[b] in c); -> ForInStatement(MemberExpression:computed(a b) c EmptyStatement)
script for((a) in b); -> ForInStatement(a b EmptyStatement)
script for([a] in b); -> ForInStatement(ArrayPattern([a]) b EmptyStatement)
script for({a} in b); -> ForInStatement(ObjectPattern([Property:init:shorthand(a a)]) b EmptyStatement)
script for(var a in b); -> ForInStatement(VariableDeclaration:var([VariableDeclarator(a _)]) b EmptyStatement)
script for(let a in b); -> ForInStatement(VariableDeclaration:let([VariableDeclarator(a _)]) b EmptyStatement)
script for(const a in b); -> ForInStatement(VariableDeclaration:const([VariableDeclarator(a _)]) b EmptyStatement)
script for(var [a] in b); -> ForInStatement(VariableDeclaration:var([VariableDeclarator(ArrayPattern([a]) _)]) b EmptyStatement)
script for(let {a} in b); -> ForInStatement(VariableDeclaration:let([VariableDeclarator(ObjectPattern([Property:init:shorthand(a a)]) _)]) b EmptyStatement)
script for(a in b,c); -> ForInStatement(a SequenceExpression([b c]) EmptyStatement)
script for(a in b=c); -> ForInStatement(a AssignmentExpression:=(b c) EmptyStatement)
script for(a in b in c); -> ForInStatement(a BinaryExpression:in(b c) EmptyStatement)
script for(a() in b); -> Unread 0
script for(1 in a); -> Unread 0
script for(a=b in c); -> Unread 0
script for(a,b in c); -> Unread 0
script for(var a=b in c); -> Unread 0
script for(let a=b in c); -> Unread 0
script for(var a,b in c); -> Unread 0
script for(a+b in c); -> Unread 0
script for(let in a); -> Unread 0
script for({a:b}.c in d); -> Unread 0
script for(a?.b in c); -> Unread 0
# 14.7.5, `for` and `of`
script for(a of b)c -> ForOfStatement(a b c;)
script for(a.b of c); -> ForOfStatement(MemberExpression(a b) c EmptyStatement)
script for([a,b] of c); -> ForOfStatement(ArrayPattern([a b]) c EmptyStatement)
script for({a=b} of c); -> ForOfStatement(ObjectPattern([Property:init:shorthand(a AssignmentPattern(a b))]) c EmptyStatement)
script for(var a of b); -> ForOfStatement(VariableDeclaration:var([VariableDeclarator(a _)]) b EmptyStatement)
script for(let a of b); -> ForOfStatement(VariableDeclaration:let([VariableDeclarator(a _)]) b EmptyStatement)
script for(const a of b); -> ForOfStatement(VariableDeclaration:const([VariableDeclarator(a _)]) b EmptyStatement)
script for(const {a,b} of c); -> ForOfStatement(VariableDeclaration:const([VariableDeclarator(ObjectPattern([Property:init:shorthand(a a) Property:init:shorthand(b b)]) _)]) c EmptyStatement)
script for(var of of of); -> ForOfStatement(VariableDeclaration:var([VariableDeclarator(of _)]) of EmptyStatement)
script for(let of of of); -> ForOfStatement(VariableDeclaration:let([VariableDeclarator(of _)]) of EmptyStatement)
script for(of of of); -> ForOfStatement(of of EmptyStatement)
script for(a of b=c); -> ForOfStatement(a AssignmentExpression:=(b c) EmptyStatement)
script for(a of b=>c); -> ForOfStatement(a ArrowFunctionExpression:expression([b] c) EmptyStatement)
script for(a of b,c); -> Unread 0
script for(var a=b of c); -> Unread 0
script for(var a,b of c); -> Unread 0
script for(let of a); -> Unread 0
script for(a() of b); -> Unread 0
script for(a of b;;); -> Unread 0
script for(let of=a;;); -> ForStatement(VariableDeclaration:let([VariableDeclarator(of a)]) _ _ EmptyStatement)
script for(async of a); -> ForOfStatement(async a EmptyStatement)
script for(async of=>a;;); -> ForStatement(ArrowFunctionExpression:async:expression([of] a) _ _ EmptyStatement)
script for(async.a of b); -> ForOfStatement(MemberExpression(async a) b EmptyStatement)
# 14.7.5, `for await`
module for await(a of b); -> ForOfStatement:await(a b EmptyStatement)
module for await(let a of b); -> ForOfStatement:await(VariableDeclaration:let([VariableDeclarator(a _)]) b EmptyStatement)
module for await(const [a] of b); -> ForOfStatement:await(VariableDeclaration:const([VariableDeclarator(ArrayPattern([a]) _)]) b EmptyStatement)
module for await(async of a); -> ForOfStatement:await(async a EmptyStatement)
module for await(a in b); -> Unread 0
module for await(;;); -> Unread 0
module for await(a=b of c); -> Unread 0
script for await(a of b); -> Unread 0
script async function f(){for await(a of b);} -> FunctionDeclaration:async(f [] BlockStatement([ForOfStatement:await(a b EmptyStatement)]))
script async()=>{for await(a of b);} -> ArrowFunctionExpression:async([] BlockStatement([ForOfStatement:await(a b EmptyStatement)]));
script function f(){for await(a of b);} -> Unread 0
script async function f(){function g(){for await(a of b);}} -> Unread 0
module async function f(){for␊await(a of b);} -> FunctionDeclaration:async(f [] BlockStatement([ForOfStatement:await(a b EmptyStatement)]))
# `in` as an operator, in the head of a `for`
script for(a in b;;); -> Unread 0
script for(var a=b in c;;); -> Unread 0
script for(a?b:c in d;;); -> Unread 0
script for(a=b+c in d;;); -> Unread 0
script for(a=>b in c;;); -> Unread 0
script for(a||b in c;;); -> Unread 0
script for((a in b);;); -> ForStatement(BinaryExpression:in(a b) _ _ EmptyStatement)
script for([a in b];;); -> ForStatement(ArrayExpression([BinaryExpression:in(a b)]) _ _ EmptyStatement)
script for(a[b in c];;); -> ForStatement(MemberExpression:computed(a BinaryExpression:in(b c)) _ _ EmptyStatement)
script for(a(b in c);;); -> ForStatement(CallExpression(a [BinaryExpression:in(b c)]) _ _ EmptyStatement)
script for(var a=(b in c);;); -> ForStatement(VariableDeclaration:var([VariableDeclarator(a BinaryExpression:in(b c))]) _ _ EmptyStatement)
script for(a=>{b in c};;); -> ForStatement(ArrowFunctionExpression([a] BlockStatement([BinaryExpression:in(b c);])) _ _ EmptyStatement)
script for(var a=function(){b in c};;); -> ForStatement(VariableDeclaration:var([VariableDeclarator(a FunctionExpression(_ [] BlockStatement([BinaryExpression:in(b c);])))]) _ _ EmptyStatement)
script for(a={b:c in d};;); -> ForStatement(AssignmentExpression:=(a ObjectExpression([Property:init(b BinaryExpression:in(c d))])) _ _ EmptyStatement)
script for(`${a in b}`;;); -> ForStatement(TemplateLiteral([`` ``:tail] [BinaryExpression:in(a b)]) _ _ EmptyStatement)
script for(a?b in c:d;;); -> ForStatement(ConditionalExpression(a BinaryExpression:in(b c) d) _ _ EmptyStatement)
script for(var a=(b)=>c;d in e;f in g); -> ForStatement(VariableDeclaration:var([VariableDeclarator(a ArrowFunctionExpression:expression([b] c))]) BinaryExpression:in(d e) BinaryExpression:in(f g) EmptyStatement)
script for(var [a=b in c]=d;;); -> ForStatement(VariableDeclaration:var([VariableDeclarator(ArrayPattern([AssignmentPattern(a BinaryExpression:in(b c))]) d)]) _ _ EmptyStatement)
script for(var a=class{b=c in d};;); -> ForStatement(VariableDeclaration:var([VariableDeclarator(a ClassExpression(_ _ ClassBody([PropertyDefinition(b BinaryExpression:in(c d))])))]) _ _ EmptyStatement)
script for(([a=b in c]=d);;); -> ForStatement(AssignmentExpression:=(ArrayPattern([AssignmentPattern(a BinaryExpression:in(b c))]) d) _ _ EmptyStatement)
# 14.8 to 14.10, `continue`, `break` and `return`
script while(a)continue -> WhileStatement(a ContinueStatement(_))
script while(a)continue; -> WhileStatement(a ContinueStatement(_))
script a:while(b)continue a -> LabeledStatement(a WhileStatement(b ContinueStatement(a)))
script a:while(b)continue␊a -> LabeledStatement(a WhileStatement(b ContinueStatement(_))) a;
script while(a)break -> WhileStatement(a BreakStatement(_))
script while(a){break␊b} -> WhileStatement(a BlockStatement([BreakStatement(_) b;]))
script a:{break a} -> LabeledStatement(a BlockStatement([BreakStatement(a)]))
script a:while(b){break a;} -> LabeledStatement(a WhileStatement(b BlockStatement([BreakStatement(a)])))
script while(a)break 1 -> Unread 0
script while(a)continue if -> Unread 0
script function f(){return} -> FunctionDeclaration(f [] BlockStatement([ReturnStatement(_)]))
script function f(){return;} -> FunctionDeclaration(f [] BlockStatement([ReturnStatement(_)]))
script function f(){return a,b} -> FunctionDeclaration(f [] BlockStatement([ReturnStatement(SequenceExpression([a b]))]))
script function f(){return␊a} -> FunctionDeclaration(f [] BlockStatement([ReturnStatement(_) a;]))
script function f(){return/a/} -> FunctionDeclaration(f [] BlockStatement([ReturnStatement(/a/:regex)]))
script function f(){return a b} -> Unread 0
commonjs return -> ReturnStatement(_)
commonjs return a;b -> ReturnStatement(a) b;
# 14.11, The `with` Statement
script with(a)b -> WithStatement(a b;)
script with(a,b){} -> WithStatement(SequenceExpression([a b]) BlockStatement([]))
module with(a)b -> WithStatement(a b;)
script with()a -> Unread 0
script with(a) -> Unread 0
# 14.12, The `switch` Statement
script switch(a){} -> SwitchStatement(a [])
script switch(a){case b:} -> SwitchStatement(a [SwitchCase(b [])])
script switch(a){case b,c:d} -> SwitchStatement(a [SwitchCase(SequenceExpression([b c]) [d;])])
script switch(a){case b:case c:d;e;default:f} -> SwitchStatement(a [SwitchCase(b []) SwitchCase(c [d; e;]) SwitchCase(_ [f;])])
script switch(a){default:case b:} -> SwitchStatement(a [SwitchCase(_ []) SwitchCase(b [])])
script switch(a){default:let b;function c(){}class d{}} -> SwitchStatement(a [SwitchCase(_ [VariableDeclaration:let([VariableDeclarator(b _)]) FunctionDeclaration(c [] BlockStatement([])) ClassDeclaration(d _ ClassBody([]))])])
script switch(a,b){case c:{}} -> SwitchStatement(SequenceExpression([a b]) [SwitchCase(c [BlockStatement([])])])
script switch(a){case:} -> Unread 0
script switch(a){b} -> Unread 0
script switch(a){case b} -> Unread 0
script switch(a){default a:} -> Unread 0
script switch(a){case b:c d} -> Unread 0
script switch(a) -> Unread 0
script switch(){} -> Unread 0
script case a: -> Unread 0
# 14.13, Labelled Statements
script a:b -> LabeledStatement(a b;)
script a:b:c -> LabeledStatement(a LabeledStatement(b c;))
script a␊:b -> LabeledStatement(a b;)
script a:{} -> LabeledStatement(a BlockStatement([]))
script a:for(;;); -> LabeledStatement(a ForStatement(_ _ _ EmptyStatement))
script async:a -> LabeledStatement(async a;)
script await:a -> LabeledStatement(await a;)
module await:a -> Unread 0
script a: -> Unread 0
script if:a -> Unread 0
script yield:a -> Unread 0
script (a):b -> Unread 0
script a:function b(){} -> Unread 0
script a:class b{} -> Unread 0
script a:let b -> Unread 0
# 14.14, The `throw` Statement
script throw a -> ThrowStatement(a)
script throw a,b; -> ThrowStatement(SequenceExpression([a b]))
script throw␊a -> Unread 0
script throw/*␊*/a -> Unread 0
script throw -> Unread 0
script throw; -> Unread 0
# 14.15, The `try` Statement
script try{}catch(a){} -> TryStatement(BlockStatement([]) CatchClause(a BlockStatement([])) _)
script try{}catch{} -> TryStatement(BlockStatement([]) CatchClause(_ BlockStatement([])) _)
script try{}finally{} -> TryStatement(BlockStatement([]) _ BlockStatement([]))
script try{a}catch(b){c}finally{d} -> TryStatement(BlockStatement([a;]) CatchClause(b BlockStatement([c;])) BlockStatement([d;]))
script try{}catch({a,b:[c]}){} -> TryStatement(BlockStatement([]) CatchClause(ObjectPattern([Property:init:shorthand(a a) Property:init(b ArrayPattern([c]))]) BlockStatement([])) _)
script try{}catch([a]){} -> TryStatement(BlockStatement([]) CatchClause(ArrayPattern([a]) BlockStatement([])) _)
script try{}␊catch␊{} -> TryStatement(BlockStatement([]) CatchClause(_ BlockStatement([])) _)
script try{} -> Unread 0
script try a;catch{} -> Unread 0
script try{}catch(a)b -> Unread 0
script try{}catch(){} -> Unread 0
script try{}catch(a=b){} -> Unread 0
script try{}catch(a,b){} -> Unread 0
script try{}catch(a.b){} -> Unread 0
script try{}catch{}catch{} -> Unread 12
script try{}finally{}catch{} -> Unread 14
script catch{} -> Unread 0
# 14.16, The `debugger` Statement
script debugger -> DebuggerStatement
script debugger; -> DebuggerStatement
script debugger a -> Unread 0
# 11.2.1, Directives
script "use strict" -> ExpressionStatement:use strict("use strict"=use strict)
script 'a';"b"␊"c" -> ExpressionStatement:a('a'=a) ExpressionStatement:b("b"=b) ExpressionStatement:c("c"=c)
script "a";b;"c" -> ExpressionStatement:a("a"=a) b; "c"=c;
script ("a") -> "a"=a;
script "a"+b -> BinaryExpression:+("a"=a b);
script "a"␊+b -> BinaryExpression:+("a"=a b);
script "a".b -> MemberExpression("a"=a b);
script "a",b -> SequenceExpression(["a"=a b]);
script ;"a" -> EmptyStatement "a"=a;
script "a\n\"b" -> ExpressionStatement:a\n\"b("a\n\"b")
script {"a"} -> BlockStatement(["a"=a;])
script if(a)"b" -> IfStatement(a "b"=b; _)
script function f(){"a";b;"c"} -> FunctionDeclaration(f [] BlockStatement([ExpressionStatement:a("a"=a) b; "c"=c;]))
script function f(){("a")} -> FunctionDeclaration(f [] BlockStatement(["a"=a;]))
script ()=>{"a"} -> ArrowFunctionExpression([] BlockStatement([ExpressionStatement:a("a"=a)]));
script ()=>"a" -> ArrowFunctionExpression:expression([] "a"=a);
script ({a(){"b"}}) -> ObjectExpression([Property:init:method(a FunctionExpression(_ [] BlockStatement([ExpressionStatement:b("b"=b)])))]);
script class A{static{"a"}} -> ClassDeclaration(A _ ClassBody([StaticBlock(["a"=a;])]))
script class A{constructor(){"a"}} -> ClassDeclaration(A _ ClassBody([MethodDefinition:constructor(constructor FunctionExpression(_ [] BlockStatement([ExpressionStatement:a("a"=a)])))]))
module "a";import"b" -> ExpressionStatement:a("a"=a) ImportDeclaration([] "b"=b)
script `a`;"b" -> TemplateLiteral([`a`:tail] []); "b"=b;
script "a"/*␊*/"b" -> ExpressionStatement:a("a"=a) ExpressionStatement:b("b"=b)
# 16.1 and 16.2.1, Programs: what comes first that isn't there
script a;b c;d -> Unread 2
script a; /* b */ c d -> Unread 11
script a␊b␊) -> Unread 4
script function f(){a b}c -> Unread 0
script a;{b;{c d}} -> Unread 2
script a;"b -> Unread 2
script größe;a b -> Unread 8
script ◇a b -> Unread 0
script ◇a;b c -> Unread 2
script #!a␊b -> b;
script  #!a -> Unread 1
script a␊#!b -> Unread 0
script <!--a -> Unread 0
script a␊-->b -> Unread 2
# Spans, in bytes: from the first token to the last one, the program's over the whole text
spans script  a ;␊ -> Program:script([ExpressionStatement(a@1-2)@1-4])@0-5
spans module (a) + b -> Program:module([ExpressionStatement(BinaryExpression:+(a@1-2 b@6-7)@0-7)@0-7])@0-7
spans commonjs (a + (b)) -> Program:commonjs([ExpressionStatement(BinaryExpression:+(a@1-2 b@6-7)@1-8)@0-9])@0-9
spans script ◇a -> Program:script([ExpressionStatement(a@0-1)@0-1])@0-1
spans script größe.é -> Program:script([ExpressionStatement(MemberExpression:!computed:!optional(größe@0-7 é@8-10)@0-10)@0-10])@0-10
spans script "ß";`${a}ß${b}` -> Program:script([ExpressionStatement:ß("ß"=ß@0-4)@0-5 ExpressionStatement(TemplateLiteral([``@5-8 `ß`@9-14 ``:tail@15-17] [a@8-9 b@14-15])@5-17)@5-17])@0-17
spans script ({a, b: (c)}) -> Program:script([ExpressionStatement(ObjectExpression([Property:init:!method:shorthand:!computed(a@2-3 a@2-3)@2-3 Property:init:!method:!shorthand:!computed(b@5-6 c@9-10)@5-11])@1-12)@0-13])@0-13
spans script (a, b) => (c) -> Program:script([ExpressionStatement(ArrowFunctionExpression:!async:expression([a@1-2 b@4-5] c@11-12)@0-13)@0-13])@0-13
spans script a?.b.c -> Program:script([ExpressionStatement(ChainExpression(MemberExpression:!computed:!optional(MemberExpression:!computed:optional(a@0-1 b@3-4)@0-4 c@5-6)@0-6)@0-6)@0-6])@0-6
spans script new (a).b(c) -> Program:script([ExpressionStatement(NewExpression(MemberExpression:!computed:!optional(a@5-6 b@8-9)@4-9 [c@10-11])@0-12)@0-12])@0-12
spans script for (var a in (b)) ; -> Program:script([ForInStatement(VariableDeclaration:var([VariableDeclarator(a@9-10 _)@9-10])@5-10 b@15-16 EmptyStatement@19-20)@0-20])@0-20
spans script do a; while (b) ; c -> Program:script([DoWhileStatement(ExpressionStatement(a@3-4)@3-5 b@13-14)@0-17 ExpressionStatement(c@18-19)@18-19])@0-19
spans script if (a) b␊else {} -> Program:script([IfStatement(a@4-5 ExpressionStatement(b@7-8)@7-8 BlockStatement([])@14-16)@0-16])@0-16
spans script var a = 1, b -> Program:script([VariableDeclaration:var([VariableDeclarator(a@4-5 1@8-9)@4-9 VariableDeclarator(b@11-12 _)@11-12])@0-12])@0-12
spans script class A { static b(c) {} ; #d = 1 } -> Program:script([ClassDeclaration(A@6-7 _ ClassBody([MethodDefinition:method:static:!computed(b@17-18 FunctionExpression:!async:!generator(_ [c@19-20] BlockStatement([])@22-24)@18-24)@10-24 PropertyDefinition:!static:!computed(#d@27-29 1@32-33)@27-33])@8-35)@0-35])@0-35
spans script async (a) => { } -> Program:script([ExpressionStatement(ArrowFunctionExpression:async:!expression([a@7-8] BlockStatement([])@13-16)@0-16)@0-16])@0-16
spans module import a, { b as c, d } from "e" ; -> Program:module([ImportDeclaration([ImportDefaultSpecifier(a@7-8)@7-8 ImportSpecifier(b@12-13 c@17-18)@12-18 ImportSpecifier(d@20-21 d@20-21)@20-21] "e"=e@29-32)@0-34])@0-34
spans module export { a as b } from "c" -> Program:module([ExportNamedDeclaration(_ [ExportSpecifier(a@9-10 b@14-15)@9-15] "c"=c@23-26)@0-26])@0-26
spans module export default a ; -> Program:module([ExportDefaultDeclaration(a@15-16)@0-18])@0-18
spans script // a␊ -> Program:script([])@0-5
spans script (a), (b) -> Program:script([ExpressionStatement(SequenceExpression([a@1-2 b@6-7])@0-8)@0-8])@0-8
spans script ((a) = (b)) -> Program:script([ExpressionStatement(AssignmentExpression:=(a@2-3 b@8-9)@1-10)@0-11])@0-11
spans script [(a), , ...(b)] -> Program:script([ExpressionStatement(ArrayExpression([a@2-3 - SpreadElement(b@12-13)@8-14])@0-15)@0-15])@0-15
spans script ({ get a() { return } }) -> Program:script([ExpressionStatement(ObjectExpression([Property:get:!method:!shorthand:!computed(a@7-8 FunctionExpression:!async:!generator(_ [] BlockStatement([ReturnStatement(_)@13-19])@11-21)@8-21)@3-21])@1-23)@0-24])@0-24"##;
